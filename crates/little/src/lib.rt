// Little-endian numbers in a slice of bytes. A byte past the end reads 0 and takes nothing, so that no reader or writer has a
// precondition.
#![tactic(auto)]

ghost use Rattle.std.specs.Prelude.{◌≡◌, ℕ, ◌+◌, ◌%◌, ◌<◌, get_or, set, slice_index};
ghost use Rattle.std.proofs.lemmas.List.Edits.{sets};
ghost use Rattle.little.specs.Little.{bytes, number, size_of};

// How many bytes a number has.
#[derive(Clone, Copy)]
pub enum Width {
    U8,
    U16,
    U32,
}

pub fn byte_at(b: &[u8], at: usize) -> u8
    ensures { result ≡ get_or b.now at 0 }
{
    b.get(at).copied().unwrap_or(0)
}

// The bytes from a place on.
fn bytes_at<const N: usize>(b: &[u8], at: usize) -> [u8; N]
    ensures { (i : ℕ) → i < N → slice_index result i ≡ get_or b.now (at + i) 0 }
{
    let mut bytes = [0; N];
    if at < b.len() {
        for i in 0..N {
            bytes[i] = byte_at(b, at + i);
        }
    }
    bytes
}

pub fn u16_at(b: &[u8], at: usize) -> u16
    ensures { result ≡ number 2 b.now at }
{
    u16::from_le_bytes(bytes_at(b, at))
}

pub fn u32_at(b: &[u8], at: usize) -> u32
    ensures { result ≡ number 4 b.now at }
{
    u32::from_le_bytes(bytes_at(b, at))
}

// The number of a width at a place.
pub fn number_at(b: &[u8], at: usize, width: Width) -> u32
    ensures { result ≡ number (size_of width) b.now at }
{
    match width {
        Width::U8 => u32::from(byte_at(b, at)),
        Width::U16 => u32::from(u16_at(b, at)),
        Width::U32 => u32_at(b, at),
    }
}

fn put_byte(out: &mut [u8], at: usize, byte: u8)
    ensures { out.new ≡ set out.old at byte }
{
    if at < out.len() {
        out[at] = byte;
    }
}

// Twice two bytes and not a loop over four, nor one function for both: with such a loop an add of the recorder takes 2.9 ns, with these 1.9 ns.
fn put_u16(out: &mut [u8], at: usize, value: u32)
    ensures { out.new ≡ sets out.old at (bytes 2 value) }
{
    if at < out.len() {
        put_byte(out, at, lowest(value));
        put_byte(out, at + 1, lowest(value / 256));
    }
}

fn put_u32(out: &mut [u8], at: usize, value: u32)
    ensures { out.new ≡ sets out.old at (bytes 4 value) }
{
    if at < out.len() {
        put_u16(out, at, value);
        put_u16(out, at + 2, value / 65_536);
    }
}

// A number's lowest bytes, as many as the width has, from a place on.
pub fn put(out: &mut [u8], at: usize, width: Width, value: u32)
    ensures { out.new ≡ sets out.old at (bytes (size_of width) value) }
{
    match width {
        Width::U8 => put_byte(out, at, lowest(value)),
        Width::U16 => put_u16(out, at, value),
        Width::U32 => put_u32(out, at, value),
    }
}

fn lowest(x: u32) -> u8
    ensures { result ≡ x % 256 }
{
    (x & 0xff) as u8
}
