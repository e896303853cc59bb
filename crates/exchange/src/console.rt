// Standard input, cut into lines, each of them answered when it has been read.
use crate::pair::Pair;
use crate::{output, pair, worked};
use lines::reader::Reader;
use report::out::Unwritten;
use report::streams::STDERR_FILENO;
use std::io::Stdin;

fn judged(p: Pair) -> Result<(), Unwritten> {
    let written = output::pair(p);
    if arranger::may_exchange(p.address, p.byte, p.other, p.value) {
        return written.and(output::yes());
    }
    let lead = arranger::shown_after(p.address, p.byte, p.other, p.value);
    written.and(output::no(lead, worked::shown(lead, p)))
}

fn answered(line: &[u8]) -> Result<(), Unwritten> {
    match pair::pair_of(line) {
        Some(p) => judged(p),
        None => output::no_pair(line),
    }
}

// The longest pair has 43 bytes, so that what is kept of a line longer than 128 is no pair. Nothing says that the input ends, so the
// loop counts its turns, to a number that no run uses up.
pub(crate) fn run(from: Stdin) -> Result<(), Unwritten> {
    let mut reader = Reader::new(from);
    let mut line = [0u8; 128];
    for _ in 0..u64::MAX {
        match reader.next_line(&mut line) {
            Ok(Some(kept)) => answered(&line[..kept])?,
            Ok(None) => break,
            Err(_) => {
                io::write_all(STDERR_FILENO, b"exchange: standard input can't be read\n");
                break;
            }
        }
    }
    Ok(())
}
