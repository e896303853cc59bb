// May the two writes be exchanged? Answers it of each line of standard input, a pair of register writes due at one cycle: yes, or no and a
// state on which their order shows.
#![tactic(auto)]

mod console;
mod output;
mod pair;
mod worked;

use report::streams::STDERR_FILENO;

fn main(rt: HostRuntime) {
    if console::run(rt.stdin()).is_err() {
        io::write_all(
            STDERR_FILENO,
            b"exchange: standard output can't be written\n",
        );
    }
}
