// What a line begins with, and the numbers that people type.
ghost use Rattle.std.specs.Prelude.{◌≡◌, true, ◌≤◌, ◌+◌, None, take, drop, length};
ghost use Rattle.lines.specs.Words.{Begins, space_of, digits_of, decimal_of, number_of};

pub fn begins(line: &[u8], word: &[u8]) -> bool
    ensures begins { result ≡ true → Begins line.now word.now }
    ensures value { Begins line.now word.now → result ≡ true }
    ensures word_in_bounds { result ≡ true → length word.now ≤ length line.now }
{
    line.starts_with(word)
}

// Where the first space is; the end where there is none.
pub fn space(text: &[u8]) -> usize
    ensures value { result ≡ space_of text.now }
    ensures upper_bound { result ≤ length text.now }
{
    text.iter().position(|&b| b == b' ').unwrap_or(text.len())
}

// What stands before the first space and what stands behind it: where there is none, nothing.
pub fn first_word(text: &[u8]) -> (&[u8], &[u8])
    ensures word { result.0.now ≡ take (space_of text.now) text.now }
    ensures rest { result.1.now ≡ drop (space_of text.now + 1) text.now }
{
    let at = space(text);
    if at < text.len() {
        (&text[..at], &text[at + 1..])
    } else {
        (text, &[])
    }
}

// 1 to `most` digits. Leading zeros are allowed, so the digits are counted and the number is tested besides.
fn digits(text: &[u8], base: u32, most: usize) -> Option<u32>
    requires { (2 ≤ base) × (base ≤ 16) }
    ensures { result ≡ digits_of base most text.now }
{
    if text.is_empty() || text.len() > most {
        return None;
    }
    let mut n: u32 = 0;
    for &byte in text {
        let d = char::from(byte).to_digit(base)?;
        n = base.checked_mul(n)?.checked_add(d)?;
    }
    Some(n)
}

// 1 to 10 decimal digits.
pub fn decimal(text: &[u8]) -> Option<u32>
    ensures { result ≡ decimal_of text.now }
{
    digits(text, 10, 10)
}

// The same, or `0x` and 1 to 8 hex digits.
pub fn decimal_or_hex(text: &[u8]) -> Option<u32>
    ensures { result ≡ number_of text.now }
{
    match text.strip_prefix(b"0x") {
        Some(hex) => digits(hex, 16, 8),
        None => decimal(text),
    }
}

// The number behind a word, of a line that begins with it.
pub fn behind(line: &[u8], word: &[u8]) -> Option<u32>
    ensures value { Begins line.now word.now → result ≡ decimal_of (drop (length word.now) line.now) }
    ensures value_2 { (Begins line.now word.now → ⊥) → result ≡ None }
{
    decimal(line.strip_prefix(word)?)
}
