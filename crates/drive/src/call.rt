// A line as a call. A line that is not exactly one, as by another case, a second space or a sign, is `Unknown`.
use check::same;
use lines::words::behind;

#[derive(Clone, Copy)]
pub(crate) enum Call {
    Play(u32),
    Seek(u32),
    Set(u32),
    SetFree,
    Clear(u32),
    GoTo(u32),
    Mute(u32),
    Image,
    Memory,
    Unknown,
}

// A call with a number: a cycle, a number of cycles, mute bits or a slot.
fn numbered(line: &[u8]) -> Option<Call> {
    behind(line, b"play ")
        .map(Call::Play)
        .or_else(|| behind(line, b"seek ").map(Call::Seek))
        .or_else(|| behind(line, b"mute ").map(Call::Mute))
        .or_else(|| behind(line, b"set ").map(Call::Set))
        .or_else(|| behind(line, b"clear ").map(Call::Clear))
        .or_else(|| behind(line, b"goto ").map(Call::GoTo))
}

pub(crate) fn call_of(line: &[u8]) -> Call {
    if same(line, b"set free") {
        return Call::SetFree;
    }
    if same(line, b"image") {
        return Call::Image;
    }
    if same(line, b"memory") {
        return Call::Memory;
    }
    numbered(line).unwrap_or(Call::Unknown)
}
