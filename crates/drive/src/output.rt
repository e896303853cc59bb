// A line's parts, and the line written out at once, so that it is answered before the next is waited for.
use crate::failure;
use report::text::Text;
use std::io::{Stdout, Write};

// The longest line, an image's, has 847 bytes.
pub(crate) type Line = Text<1024>;

// A 32-bit number behind its word.
pub(crate) fn labelled(line: &mut Line, word: &[u8], n: u32) {
    line.labelled(word, u64::from(n));
}

pub(crate) fn put(mut to: Stdout, line: &Line) {
    if let Err(why) = to.write_all(line.as_slice()) {
        failure::told(b"standard output", why);
    }
}
