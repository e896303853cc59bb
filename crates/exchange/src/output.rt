// The lines, written a part at a time: a text lent from function to function, as other programs have it, costs the prover more. Where
// one part can't be written the next are tried all the same.
use crate::pair::Pair;
use crate::worked::Difference;
use arranger::Lead;
use report::out;
use report::out::Unwritten;
use report::streams::STDOUT_FILENO;

fn put(words: &[u8]) -> Result<(), Unwritten> {
    out::put(STDOUT_FILENO, words)
}

fn labelled(words: &[u8], n: u64) -> Result<(), Unwritten> {
    put(words).and(Unwritten::unless(io::print_decimal(STDOUT_FILENO, n)))
}

// The address always as four digits.
fn write(words: &[u8], address: u32, byte: u8) -> Result<(), Unwritten> {
    put(words)
        .and(Unwritten::unless(io::print_hex(STDOUT_FILENO, u64::from(address), 4)))
        .and(labelled(b" ", u64::from(byte)))
}

pub(crate) fn pair(p: Pair) -> Result<(), Unwritten> {
    write(b"0x", p.address, p.byte).and(write(b" 0x", p.other, p.value))
}

pub(crate) fn yes() -> Result<(), Unwritten> {
    put(b" yes\n")
}

fn filled(address: u32, byte: u8) -> Result<(), Unwritten> {
    write(b" no after 0x", address, byte)
}

fn led(lead: Lead) -> Result<(), Unwritten> {
    match lead {
        Lead::PowerOn => put(b" no from power-on"),
        Lead::Filled { address, byte } => filled(address, byte),
        Lead::Playing {
            address,
            byte,
            start,
        } => filled(address, byte).and(write(b", 0x", start, 0x80)),
    }
}

fn differs(d: Option<Difference>) -> Result<(), Unwritten> {
    match d {
        Some(d) => {
            labelled(b": byte ", d.at as u64)
                .and(labelled(b" of the image is ", u64::from(d.given)))
                .and(labelled(b" or ", u64::from(d.exchanged)))
        }
        None => put(b": no byte of the image differs"),
    }
}

pub(crate) fn no(lead: Lead, d: Option<Difference>) -> Result<(), Unwritten> {
    led(lead).and(differs(d)).and(put(b"\n"))
}

// A comment and an empty line as they are.
pub(crate) fn no_pair(line: &[u8]) -> Result<(), Unwritten> {
    if !line.is_empty() && line[0] != b'#' {
        return put(b"unknown\n");
    }
    put(line).and(put(b"\n"))
}
