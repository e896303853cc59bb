// Which of the streams that a program writes are terminals: asked once, where the program begins.
use std::io::{IsTerminal, Stderr, Stdout};

#[derive(Clone, Copy)]
pub struct Terminals {
    pub output: bool,
    pub error: bool,
}

pub fn asked(output: Stdout, error: Stderr) -> Terminals {
    Terminals {
        output: output.is_terminal(),
        error: error.is_terminal(),
    }
}
