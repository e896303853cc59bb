// Sums of what a program made, by which two runs are compared: s = (s × 31 + v) mod 1,000,000,007.
ghost use Rattle.std.specs.Prelude.{◌≡◌, ◌*◌, take};
ghost use Rattle.report.specs.Sum.{fold, fold_all, fold_sides, side_of};

// `as`: the rest fits, and `u32::try_from` would have an Err that never comes.
fn fold(sum: u32, value: u32) -> u32
    ensures { result ≡ fold sum value }
{
    ((u64::from(sum) * 31 + u64::from(value)) % 1_000_000_007) as u32
}

// A side modulo 65,536; the unit makes none below 0.
pub fn side(value: i16) -> u32
    ensures { result ≡ side_of value }
{
    u32::from(value.cast_unsigned())
}

// A sum, and after it the sides of the first `frames` frames of a buffer, left side first. (`as`: Rust has no From of a u32 for usize.)
pub fn of_frames(start: u32, sides: &[i16], frames: u32) -> u32
    ensures { result ≡ fold_sides start (take (2 * frames) sides.now) }
{
    let end = (2 * (frames as usize)).min(sides.len());
    sides[..end]
        .iter()
        .fold(start, |sum, &value| fold(sum, side(value)))
}

pub fn of_bytes(bytes: &[u8]) -> u32
    ensures { result ≡ fold_all 0 bytes.now }
{
    bytes
        .iter()
        .fold(0, |sum, &byte| fold(sum, u32::from(byte)))
}
