// Was the write heard? Tells it of the log on standard input: a line for each entry that was held off by playing or had no register, and
// last how many were what.
#![tactic(auto)]

mod output;
mod walk;

use refusal::Refusal;
use register_log::Log;
use report::out::Unwritten;
use report::streams::STDOUT_FILENO;
use report::terminal::Terminals;
use report::{input, out, print, terminal};

fn refused(why: Refusal) -> Result<(), Unwritten> {
    out::refused(STDOUT_FILENO, why)
}

fn hear(log: &[u8], terminals: Terminals) -> Result<(), Unwritten> {
    let c = register_log::check_log(log);
    match c {
        Ok(Log { count, cycles }) => walk::through(log, count, cycles, terminals),
        Err(why) => refused(why),
    }
}

fn heard(terminals: Terminals) -> Result<(), Unwritten> {
    let mut space = [0u8; 1048577];
    match input::whole(&mut space) {
        Ok(log) => hear(log, terminals),
        Err(why) => refused(why),
    }
}

fn main(rt: HostRuntime) {
    let terminals = terminal::asked(rt.stdout(), rt.stderr());
    if heard(terminals).is_err() {
        print::unwritten(b"heard", terminals);
    }
}
