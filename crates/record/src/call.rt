// A line as a call. A line that is not exactly one, as by another case, a second space or a sign, is `Unknown`.
use lines::words;

#[derive(Clone, Copy)]
pub(crate) enum Call {
    Add { cycle: u32, address: u16, byte: u8 },
    Finish(u32),
    // An empty line or a comment.
    Nothing,
    Unknown,
}

// `CYCLE ADDRESS BYTE`: "ADDRESS at most 65,535, BYTE at most 255"
fn add(text: &[u8]) -> Option<Call> {
    let (cycle, text) = words::first_word(text);
    let (address, byte) = words::first_word(text);
    let cycle = words::decimal_or_hex(cycle)?;
    let address = u16::try_from(words::decimal_or_hex(address)?).ok()?;
    let byte = u8::try_from(words::decimal_or_hex(byte)?).ok()?;
    Some(Call::Add {
        cycle,
        address,
        byte,
    })
}

fn call_of(line: &[u8]) -> Option<Call> {
    if let Some(text) = line.strip_prefix(b"add ") {
        return add(text);
    }
    let length = line.strip_prefix(b"finish ")?;
    Some(Call::Finish(words::decimal_or_hex(length)?))
}

// The call in what is kept of a line. A line that fills the 37 bytes, one more than the longest call has, three numbers of ten bytes
// behind `add`, is no call, however long it is.
pub(crate) fn call_in(line: &[u8]) -> Call {
    if line.is_empty() || line[0] == b'#' {
        return Call::Nothing;
    }
    if line.len() < 37 {
        return call_of(line).unwrap_or(Call::Unknown);
    }
    Call::Unknown
}
