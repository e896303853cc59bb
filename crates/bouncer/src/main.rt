// Lists the log on standard input with its six stems: a first line, then a line for each frame, with the mix and each voice alone.
#![tactic(auto)]

mod output;
mod spans;

use refusal::Refusal;
use register_log::Log;
use report::out::Unwritten;
use report::streams::STDOUT_FILENO;
use report::terminal::Terminals;
use report::{input, out, print, terminal};

fn refused(why: Refusal) -> Result<(), Unwritten> {
    out::refused(STDOUT_FILENO, why)
}

fn list(log: &[u8], terminals: Terminals) -> Result<(), Unwritten> {
    let c = register_log::check_log(log);
    match c {
        Ok(Log { count, cycles }) => {
            output::heading(log, count, cycles)?;
            spans::list(log, cycles, terminals)
        }
        Err(why) => refused(why),
    }
}

fn listed(terminals: Terminals) -> Result<(), Unwritten> {
    let mut space = [0u8; 65537];
    match input::whole(&mut space) {
        Ok(log) => list(log, terminals),
        Err(why) => refused(why),
    }
}

fn main(rt: HostRuntime) {
    let terminals = terminal::asked(rt.stdout(), rt.stderr());
    if listed(terminals).is_err() {
        print::unwritten(b"bouncer", terminals);
    }
}
