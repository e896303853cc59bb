// A call done, and its line: laid in the text that is lent.
use crate::call::Call;
use crate::output::{Line, labelled};
use deck::{Counts, Played, Player};
use refusal::Refusal;
use report::sum;

// What a line tells in numbers: the record's, and a play's frames and what became of its entries, the slot of a mark that is set, the sum
// of what was asked for.
#[derive(Clone, Copy)]
pub(crate) struct Numbers {
    cycle: u32,
    applied: u32,
    marks: u32,
    free: u32,
    frames: u32,
    counts: Counts,
    slot: u32,
    sum: u32,
}

// What was played: of a call that is no play, or none at all, nothing.
pub(crate) fn done(
    p: &mut Player,
    call: Call,
    log: &[u8],
    memory: &mut [u8],
    sides: &mut [i16],
    image: &mut [u8],
) -> Result<Played, Refusal> {
    match call {
        Call::Play(n) => return player::play(p, n, log, sides),
        Call::Seek(target) => player::seek(p, target, log)?,
        Call::Set(slot) => player::set_mark(p, slot, log, memory)?,
        Call::SetFree => player::set_free(p, log, memory)?,
        Call::Clear(slot) => player::clear_mark(p, slot)?,
        Call::GoTo(slot) => player::go_to(p, slot, log, memory)?,
        Call::Mute(bits) => player::mute(p, bits)?,
        Call::Image => image::write_image(p.unit, image)?,
        Call::Memory | Call::Unknown => {}
    }
    Ok(Played::default())
}

fn sum_of(call: Call, frames: u32, memory: &[u8], sides: &[i16]) -> u32 {
    match call {
        Call::Play(_) => sum::of_frames(0, sides, frames),
        Call::Memory => sum::of_bytes(memory),
        _ => 0,
    }
}

// The slot that a set writes: the one that it names, or the lowest that is free.
fn slot_of(call: Call, free: u32) -> u32 {
    match call {
        Call::Set(slot) => slot,
        _ => free,
    }
}

// After a call: the record, the frames that it made, what became of its entries, the lowest slot that was free before, and what it wrote.
pub(crate) fn told(
    p: &Player,
    call: Call,
    played: Played,
    free: u32,
    memory: &[u8],
    sides: &[i16],
) -> Numbers {
    Numbers {
        cycle: p.cycle,
        applied: p.applied,
        marks: player::marks_set(p),
        free: player::lowest_free(p),
        frames: played.frames,
        counts: played.counts,
        slot: slot_of(call, free),
        sum: sum_of(call, played.frames, memory, sides),
    }
}

// The record's words, behind the call's own.
fn record(n: Numbers, line: &mut Line) {
    labelled(line, b" cycle ", n.cycle);
    labelled(line, b" applied ", n.applied);
    labelled(line, b" marks ", n.marks);
    labelled(line, b" free ", n.free);
}

// A play's line: behind the record, what became of the entries of its span.
fn played(n: Numbers, line: &mut Line) {
    labelled(line, b"played ", n.frames);
    labelled(line, b" sum ", n.sum);
    record(n, line);
    labelled(line, b" taken ", n.counts.taken);
    labelled(line, b" held ", n.counts.held);
    labelled(line, b" none ", n.counts.none);
}

// A call that says nothing but what it did.
fn moved(call: Call, line: &mut Line) {
    match call {
        Call::Clear(_) => line.words(b"cleared"),
        Call::GoTo(_) => line.words(b"went"),
        _ => line.words(b"sought"),
    }
}

// A call that tells the record last.
fn did(call: Call, n: Numbers, line: &mut Line) {
    match call {
        Call::Set(_) | Call::SetFree => labelled(line, b"set ", n.slot),
        Call::Mute(bits) => labelled(line, b"muted ", bits),
        _ => moved(call, line),
    }
}

// A line but for its newline.
pub(crate) fn accepted(call: Call, n: Numbers, image: &[u8], line: &mut Line) {
    match call {
        Call::Image => {
            line.words(b"image ");
            line.hex(image);
        }
        Call::Memory => labelled(line, b"memory sum ", n.sum),
        Call::Play(_) => played(n, line),
        Call::Unknown => line.words(b"unknown"),
        _ => {
            did(call, n, line);
            record(n, line);
        }
    }
}

pub(crate) fn refused(why: Refusal, n: Numbers, line: &mut Line) {
    line.refused(why);
    record(n, line);
}
