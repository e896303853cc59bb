// Standard input, cut into lines, each of them a call.
use crate::answer::Numbers;
use crate::call::Call;
use crate::output::Line;
use crate::{answer, call, failure, output};
use deck::{MEMORY_SIZE, Player};
use lines::reader::Reader;
use refusal::Refusal;
use std::io::{Stdin, Stdout};

// A line that fills the 17 bytes that are kept of it, one more than the longest call, `clear 4294967295`, has, is no call, however long it is.
fn call_in(line: &[u8]) -> Call {
    if line.len() < 17 {
        call::call_of(line)
    } else {
        Call::Unknown
    }
}

fn tell(to: Stdout, call: Call, a: Result<(), Refusal>, n: Numbers, image: &[u8]) {
    let mut line = Line::new();
    match a {
        Ok(()) => answer::accepted(call, n, image, &mut line),
        Err(why) => answer::refused(why, n, &mut line),
    }
    line.words(b"\n");
    output::put(to, &line);
}

fn answered(
    to: Stdout,
    p: &mut Player,
    call: Call,
    log: &[u8],
    memory: &mut [u8; MEMORY_SIZE],
    sides: &mut [i16; 65536],
) {
    let mut image = [0u8; 420];
    let free = player::lowest_free(p);
    let done = answer::done(p, call, log, memory, sides, &mut image);
    let n = answer::told(p, call, done.unwrap_or_default(), free, memory, sides);
    tell(to, call, done.map(|_| ()), n, &image);
}

// The frame buffer holds 32,768 frames. Nothing says that the input ends, so the loop counts its turns, to a number that no run uses up.
pub(crate) fn run(from: Stdin, to: Stdout, log: &[u8]) {
    let mut reader = Reader::new(from);
    let mut line = [0u8; 17];
    let mut memory = [0u8; MEMORY_SIZE];
    let mut sides = [0i16; 65536];
    let mut p = player::open(log).player;
    for _ in 0..u64::MAX {
        let kept = match reader.next_line(&mut line) {
            Ok(Some(kept)) => kept,
            Ok(None) => break,
            Err(why) => {
                failure::told(b"standard input", why);
                break;
            }
        };
        let call = call_in(&line[..kept]);
        answered(to, &mut p, call, log, &mut memory, &mut sides);
    }
}
