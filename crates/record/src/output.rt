// What is said of a line, on standard error, and the log on standard output.
use refusal::Refusal;
use report::streams::{STDERR_FILENO, STDOUT_FILENO};
use report::text::Text;

// Where the line stands, at the text's front.
fn placed(k: u64) -> Text<64> {
    let mut text = Text::new();
    text.labelled(b"line ", k);
    text.words(b": ");
    text
}

pub(crate) fn refused(k: u64, why: Refusal) {
    let mut text = placed(k);
    text.refused(why);
    text.words(b"\n");
    io::write_all(STDERR_FILENO, text.as_slice());
}

pub(crate) fn unknown(k: u64) {
    let mut text = placed(k);
    text.words(b"unknown\n");
    io::write_all(STDERR_FILENO, text.as_slice());
}

pub(crate) fn unread() {
    io::write_all(STDERR_FILENO, b"record: standard input can't be read\n");
}

pub(crate) fn unfinished() {
    io::write_all(STDERR_FILENO, b"no log was finished\n");
}

// The log at the buffer's front. A log that was finished had room there; the lesser number says so to the checker.
pub(crate) fn log(buffer: &[u8], size: usize) {
    let log = &buffer[..size.min(buffer.len())];
    if !io::write_all(STDOUT_FILENO, log) {
        io::write_all(STDERR_FILENO, b"record: standard output can't be written\n");
    }
}
