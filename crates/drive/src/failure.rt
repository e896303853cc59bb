// A call of the system that failed: told on standard error, with the system's reason.
use report::streams::STDERR_FILENO;
use report::text::Text;
use std::fmt::Write;
use std::io::Error;

// The system's words of a reason: std puts ` (os error `, the error's number and `)` behind them.
fn words_of(reason: &[u8]) -> &[u8] {
    match reason.iter().rposition(|byte| *byte == b'(') {
        Some(at) => &reason[..at.saturating_sub(1)],
        None => reason,
    }
}

pub(crate) fn told(what: &[u8], why: Error) {
    let mut reason = Text::<128>::new();
    let _ = write!(reason, "{why}");
    io::write_all(STDERR_FILENO, what);
    io::write_all(STDERR_FILENO, b": ");
    io::write_all(STDERR_FILENO, words_of(reason.as_slice()));
    io::write_all(STDERR_FILENO, b"\n");
}
