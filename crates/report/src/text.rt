// Text in a buffer of the caller's. Each function is given the place of the next byte and answers the one after what it laid; what
// doesn't fit is left out.
ghost use Rattle.std.specs.Prelude.{◌≡◌, ◌++◌, length, take, replicate, IsOk};
ghost use Rattle.std.proofs.lemmas.List.Edits.{sets};
ghost use Rattle.refusal.specs.Refusal.{number_of, carried_of};
ghost use Rattle.report.specs.Text.{place_behind, decimal_of, hex_of, refused_of};

use refusal::Refusal;
use std::fmt;

pub fn words(out: &mut [u8], at: usize, text: &[u8]) -> usize
    ensures value { result ≡ place_behind (length out.old) at (length text.now) }
    ensures out_after { out.new ≡ sets out.old at text.now }
{
    if out.len() <= at {
        return at;
    }
    let k = text.len().min(out.len() - at);
    out[at..at + k].copy_from_slice(&text[..k]);
    at + k
}

// A number's decimal digits.
pub fn number(out: &mut [u8], at: usize, n: u64) -> usize
    ensures value { result ≡ place_behind (length out.old) at (length (decimal_of n)) }
    ensures out_after { out.new ≡ sets out.old at (decimal_of n) }
{
    let mut digits = [0u8; 20];
    let k = io::decimal(n, &mut digits);
    words(out, at, &digits[..k])
}

// A number behind its words.
pub fn labelled(out: &mut [u8], at: usize, text: &[u8], n: u64) -> usize
    ensures value { result ≡ place_behind (length out.old) at (length (text.now ++ decimal_of n)) }
    ensures out_after { out.new ≡ sets out.old at (text.now ++ decimal_of n) }
{
    let a = words(out, at, text);
    number(out, a, n)
}

// Two lower-case hex digits for each byte.
pub fn hex(out: &mut [u8], at: usize, bytes: &[u8]) -> usize
    ensures value { result ≡ place_behind (length out.old) at (length (hex_of bytes.now)) }
    ensures out_after { out.new ≡ sets out.old at (hex_of bytes.now) }
{
    let mut next = at;
    for &byte in bytes {
        let mut digits = [0u8; 16];
        let k = io::hex(u64::from(byte), 2, &mut digits);
        next = words(out, next, &digits[..k]);
    }
    next
}

// "A refusal prints `refused` with number and carried value, 0 where none is carried."
pub fn refused(out: &mut [u8], at: usize, why: Refusal) -> usize
    ensures value { result ≡ place_behind (length out.old) at (length (refused_of (number_of why) (carried_of why))) }
    ensures out_after { out.new ≡ sets out.old at (refused_of (number_of why) (carried_of why)) }
{
    let a = labelled(out, at, b"refused ", u64::from(refusal::number(why)));
    labelled(out, a, b" ", u64::from(refusal::carried(why)))
}

// The same piece behind piece, in a buffer that keeps where its text ends.
#[derive(Drop)]
pub struct Text<const N: usize> {
    pub bytes: [u8; N],
    pub end: usize,
}

impl<const N: usize> Text<N> {
    pub fn new() -> Self
        ensures end { result.end ≡ 0 }
        ensures bytes { result.bytes ≡ replicate N 0 }
    {
        Text {
            bytes: [0; N],
            end: 0,
        }
    }

    pub fn as_slice(&self) -> &[u8]
        ensures { result.now ≡ take self.now.end self.now.bytes }
    {
        &self.bytes[..self.end.min(N)]
    }

    pub fn words(&mut self, text: &[u8])
        ensures end { self.new.end ≡ place_behind N self.old.end (length text.now) }
        ensures bytes { self.new.bytes ≡ sets self.old.bytes self.old.end text.now }
    {
        self.end = words(&mut self.bytes, self.end, text);
    }

    pub fn number(&mut self, n: u64)
        ensures end { self.new.end ≡ place_behind N self.old.end (length (decimal_of n)) }
        ensures bytes { self.new.bytes ≡ sets self.old.bytes self.old.end (decimal_of n) }
    {
        self.end = number(&mut self.bytes, self.end, n);
    }

    pub fn labelled(&mut self, text: &[u8], n: u64)
        ensures end { self.new.end ≡ place_behind N self.old.end (length (text.now ++ decimal_of n)) }
        ensures bytes { self.new.bytes ≡ sets self.old.bytes self.old.end (text.now ++ decimal_of n) }
    {
        self.end = labelled(&mut self.bytes, self.end, text, n);
    }

    pub fn hex(&mut self, bytes: &[u8])
        ensures end { self.new.end ≡ place_behind N self.old.end (length (hex_of bytes.now)) }
        ensures bytes { self.new.bytes ≡ sets self.old.bytes self.old.end (hex_of bytes.now) }
    {
        self.end = hex(&mut self.bytes, self.end, bytes);
    }

    pub fn refused(&mut self, why: Refusal)
        ensures end { self.new.end ≡ place_behind N self.old.end (length (refused_of (number_of why) (carried_of why))) }
        ensures bytes { self.new.bytes ≡ sets self.old.bytes self.old.end (refused_of (number_of why) (carried_of why)) }
    {
        self.end = refused(&mut self.bytes, self.end, why);
    }
}

// What doesn't fit is no error here either.
impl<const N: usize> fmt::Write for Text<N> {
    ghost write_str_gives = { λ s text t. (t.end ≡ place_behind N s.end (length text)) × (t.bytes ≡ sets s.bytes s.end text) };

    fn write_str(&mut self, text: &str) -> fmt::Result
        ensures ok { IsOk result }
        ensures end { self.new.end ≡ place_behind N self.old.end (length text.now) }
        ensures bytes { self.new.bytes ≡ sets self.old.bytes self.old.end text.now }
    {
        self.words(text.as_bytes());
        Ok(())
    }
}
