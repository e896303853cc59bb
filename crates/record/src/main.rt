// The panel recorder: each line of standard input is a turn of the panel, and the log that is finished goes to standard output.
#![tactic(auto)]

mod call;
mod console;
mod output;

// Room for 131,070 entries.
fn main(rt: HostRuntime) {
    let mut buffer = [0u8; 1048576];
    console::run(rt.stdin(), &mut buffer);
}
