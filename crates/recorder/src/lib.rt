// The panel recorder: writes added as they are made, in a buffer of the caller's that becomes a register log.
#![tactic(auto)]

ghost use Rattle.std.specs.Prelude.{◌≡◌, length};
ghost use Rattle.std.proofs.lemmas.List.Edits.{sets};
ghost use Rattle.register_log.specs.Log.{edition1, entry_place};
ghost use Rattle.register_log.specs.Encoder.{entry_bytes, header_bytes};
ghost use Rattle.refusal.specs.Refusal.{Tells};
ghost use Rattle.recorder.specs.Recorder.{start_answer, start_of, add_answer, add_of, finish_answer, finish_of};

use little::Width;
use refusal::Refusal;

// How many entries there are, and the due cycle of the last; without entries `last` means nothing.
#[derive(Clone, Copy)]
pub struct Recorder {
    pub entries: u32,
    pub last: u32,
}

const NONE: Recorder = Recorder {
    entries: 0,
    last: 0,
};

// The record that a start makes, and how it ended: no Result, since a refused start hands back a record without entries too (`start_of`).
#[derive(Clone, Copy)]
pub struct Started {
    pub recorder: Recorder,
    pub answer: Result<(), Refusal>,
}

// How many bytes the log has.
pub fn size(r: Recorder) -> usize
    ensures { result ≡ entry_place edition1 r.entries }
{
    register_log::entry_place(r.entries)
}

// Nothing is written yet: the header comes with the length, at a finish.
pub fn start(buffer: &mut [u8]) -> Started
    ensures { (result.answer ≡ (start_of edition1 buffer.old).turn.answer)
        × (result.recorder ≡ (start_of edition1 buffer.old).turn.recorder)
        × (buffer.new ≡ (start_of edition1 buffer.old).buffer)
        × Tells result.answer (start_answer edition1 (length buffer.old)) }
{
    let answer = if buffer.len() < 16 {
        Err(Refusal::Room)
    } else {
        Ok(())
    };
    Started {
        recorder: NONE,
        answer,
    }
}

fn put_entry(buffer: &mut [u8], index: u32, cycle: u32, address: u16, byte: u8)
    ensures { buffer.new ≡ sets buffer.old (entry_place edition1 index) (entry_bytes edition1 (record { due = cycle; address = address; byte = byte })) }
{
    let at = register_log::entry_place(index);
    little::put(buffer, at, Width::U32, cycle);
    little::put(buffer, at + 4, Width::U16, u32::from(address));
    little::put(buffer, at + 6, Width::U16, u32::from(byte)); // and the zero behind it
}

// The next entry: a write and the cycle it is due at.
pub fn add(
    r: &mut Recorder,
    cycle: u32,
    address: u16,
    byte: u8,
    buffer: &mut [u8],
) -> Result<(), Refusal>
    ensures { (result ≡ (add_of edition1 r.old (record { due = cycle; address = address; byte = byte }) buffer.old).turn.answer)
        × (r.new ≡ (add_of edition1 r.old (record { due = cycle; address = address; byte = byte }) buffer.old).turn.recorder)
        × (buffer.new ≡ (add_of edition1 r.old (record { due = cycle; address = address; byte = byte }) buffer.old).buffer)
        × Tells result (add_answer edition1 r.old cycle (length buffer.old)) }
{
    if (r.entries != 0) & (cycle < r.last) {
        return Err(Refusal::CycleEarlier);
    }
    if r.entries >= 1_000_000 {
        return Err(Refusal::LogCount);
    }
    // by its own place and not the next one's: so the compiler sees that all eight bytes have room
    if buffer.len() < register_log::entry_place(r.entries) + 8 {
        return Err(Refusal::Room);
    }
    put_entry(buffer, r.entries, cycle, address, byte);
    *r = Recorder {
        entries: r.entries + 1,
        last: cycle,
    };
    Ok(())
}

fn put_header(buffer: &mut [u8], count: u32, cycles: u32)
    ensures { buffer.new ≡ sets buffer.old 0 (header_bytes edition1 count cycles) }
{
    little::put(buffer, 0, Width::U16, 1);
    little::put(buffer, 2, Width::U16, 16);
    little::put(buffer, 4, Width::U32, count);
    little::put(buffer, 8, Width::U32, 16);
    little::put(buffer, 12, Width::U32, cycles);
}

// `cycles` is the log's length L. The record stays, so that more can be added and finished again.
pub fn finish(r: Recorder, cycles: u32, buffer: &mut [u8]) -> Result<(), Refusal>
    ensures { (result ≡ (finish_of edition1 r cycles buffer.old).turn.answer)
        × (r ≡ (finish_of edition1 r cycles buffer.old).turn.recorder)
        × (buffer.new ≡ (finish_of edition1 r cycles buffer.old).buffer)
        × Tells result (finish_answer edition1 r cycles (length buffer.old)) }
{
    if (r.entries != 0) & (cycles <= r.last) {
        return Err(Refusal::LengthShort);
    }
    if r.entries > 1_000_000 {
        return Err(Refusal::LogCount);
    }
    if buffer.len() < register_log::entry_place(r.entries) {
        return Err(Refusal::Room);
    }
    put_header(buffer, r.entries, cycles);
    Ok(())
}
