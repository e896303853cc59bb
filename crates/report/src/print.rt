// Lines on standard output, and what is said where they can't be written.
use crate::streams::{STDERR_FILENO, STDOUT_FILENO};
use crate::terminal::Terminals;

// A form, in which each `#` stands for the next of the numbers. It answers nothing, so that a contract has nothing to say.
pub fn line(form: &[u8], numbers: &[u64]) {
    let mut rest = form;
    for &n in numbers {
        let at = rest.iter().position(|&b| b == b'#').unwrap_or(rest.len());
        io::write_all(STDOUT_FILENO, &rest[..at]);
        io::print_decimal(STDOUT_FILENO, n);
        rest = &rest[(at + 1).min(rest.len())..];
    }
    io::write_all(STDOUT_FILENO, rest);
}

// On a terminal the line may hold how much is done, and the message goes over it. It answers nothing either.
pub fn unwritten(program: &[u8], terminals: Terminals) {
    if terminals.error {
        io::write_all(STDERR_FILENO, b"\r");
    }
    io::write_all(STDERR_FILENO, program);
    io::write_all(STDERR_FILENO, b": standard output can't be written\n");
}
