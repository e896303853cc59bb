// What the Rust's `bitfield!` does: shifts and masks that unpack a register byte.
ghost use Rattle.std.specs.Prelude.{◌≡◌, ◌/◌, ◌^◌};
ghost use Rattle.common.specs.Bits.{bits, bit, signed, addend, with_low, with_high};

// `width` bits of `value`, from bit `from` up.
pub fn field(value: u8, from: u8, width: u8) -> u8
    ensures { result ≡ bits from width value }
{
    if from > 7 {
        return 0;
    }
    if width > 7 {
        return value >> from;
    }
    (value >> from) & ((1 << width) - 1)
}

pub fn flag(value: u8, at: u8) -> bool
    ensures { result ≡ bit at value }
{
    field(value, at, 1) == 1
}

// A shift by any number: past the sixteenth bit nothing is left.
pub fn shifted(x: u16, by: u8) -> u16
    ensures { result ≡ x / 2 ^ by }
{
    x.checked_shr(u32::from(by)).unwrap_or(0)
}

// `value as i8` of the Rust.
pub fn signed(value: u8) -> i8
    ensures { result ≡ signed value }
{
    value.cast_signed()
}

// What the entry adds modulo 2048, as a number that is not below 0.
pub fn addend(entry: i8) -> u16
    ensures { result ≡ addend entry }
{
    (entry as i16 + 2048) as u16
}

// The byte in the low eight bits of a frequency, the others as they were.
pub fn with_low(frequency: u16, value: u8) -> u16
    ensures { result ≡ with_low value frequency }
{
    frequency / 256 * 256 + value as u16
}

// Bits 0 to 2 of the byte in bits 8 to 10 of a frequency, the low eight as they were.
pub fn with_high(frequency: u16, value: u8) -> u16
    ensures { result ≡ with_high value frequency }
{
    frequency % 256 + 256 * field(value, 0, 3) as u16
}
