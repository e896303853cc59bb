// A line as a pair of writes. A line that is not exactly one, as by a second space or a sign, is none.
use lines::words;

// A byte to an address, and a value to another.
#[derive(Clone, Copy)]
pub(crate) struct Pair {
    pub(crate) address: u32,
    pub(crate) byte: u8,
    pub(crate) other: u32,
    pub(crate) value: u8,
}

// At most 65,535, as in a log.
fn address(text: &[u8]) -> Option<u32> {
    words::decimal_or_hex(text).filter(|&n| n <= 65_535)
}

fn byte(text: &[u8]) -> Option<u8> {
    u8::try_from(words::decimal_or_hex(text)?).ok()
}

// `ADDRESS BYTE ADDRESS BYTE`
pub(crate) fn pair_of(line: &[u8]) -> Option<Pair> {
    let (first, rest) = words::first_word(line);
    let (second, rest) = words::first_word(rest);
    let (third, fourth) = words::first_word(rest);
    Some(Pair {
        address: address(first)?,
        byte: byte(second)?,
        other: address(third)?,
        value: byte(fourth)?,
    })
}
