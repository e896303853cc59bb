// Standard input, cut into lines, each of them a call of the recorder.
use crate::call::Call;
use crate::{call, output};
use lines::reader::Reader;
use recorder::Recorder;
use refusal::Refusal;
use std::io::Stdin;

// A line that is no call leaves the record.
fn done(r: &mut Recorder, call: Call, buffer: &mut [u8]) -> Result<(), Refusal> {
    match call {
        Call::Add {
            cycle,
            address,
            byte,
        } => recorder::add(r, cycle, address, byte, buffer),
        Call::Finish(cycles) => recorder::finish(*r, cycles, buffer),
        Call::Nothing | Call::Unknown => Ok(()),
    }
}

// Says what is to be said of line k. The answer is whether it finished a log.
fn told(k: u64, call: Call, a: Result<(), Refusal>) -> bool {
    if let Err(why) = a {
        output::refused(k, why);
        return false;
    }
    if matches!(call, Call::Unknown) {
        output::unknown(k);
    }
    matches!(call, Call::Finish(_))
}

// Up to the first accepted finish. Nothing says that the input ends; no run has as many lines as are counted here.
pub(crate) fn run(from: Stdin, buffer: &mut [u8]) {
    let mut reader = Reader::new(from);
    let mut line = [0u8; 37];
    let mut r = recorder::start(buffer).recorder;
    for k in 0..u64::MAX {
        let kept = match reader.next_line(&mut line) {
            Ok(Some(kept)) => kept,
            Ok(None) => break,
            Err(_) => {
                output::unread();
                break;
            }
        };
        let call = call::call_in(&line[..kept]);
        let a = done(&mut r, call, buffer);
        if told(k + 1, call, a) {
            output::log(buffer, recorder::size(r));
            return;
        }
    }
    output::unfinished();
}
