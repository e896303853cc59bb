// The file's form: RIFF chunks, all numbers little-endian, 16-bit stereo sides one after the other, left first.
ghost use Rattle.std.specs.Prelude.{◌≤◌};

use little::Width;
use report::sum;

// Frames a second: the clock of 20,000,000 by 480 is 41,666 and two thirds, and the header has a whole number.
const RATE: u32 = 41_667;

const CHANNELS: u32 = 2;

const BITS: u32 = 16;

// A frame's bytes.
const BLOCK: u32 = CHANNELS * BITS / 8;

// A chunk's name and the number of bytes behind them.
fn chunk(out: &mut [u8; 44], at: usize, name: &[u8; 4], size: u32)
    requires { at ≤ 36 }
{
    out[at..at + 4].copy_from_slice(name);
    little::put(out, at + 4, Width::U32, size);
}

// Plain numbers (1), channels, frames and bytes a second, bytes a frame, bits a side.
fn format(out: &mut [u8; 44]) {
    chunk(out, 12, b"fmt ", 16);
    little::put(out, 20, Width::U16, 1);
    little::put(out, 22, Width::U16, CHANNELS);
    little::put(out, 24, Width::U32, RATE);
    little::put(out, 28, Width::U32, RATE * BLOCK);
    little::put(out, 32, Width::U16, BLOCK);
    little::put(out, 34, Width::U16, BITS);
}

// The 44 bytes before the frames of a log's cycles. Power-on has output counter 0, so each 480 cycles make a frame.
pub(crate) fn header(out: &mut [u8; 44], cycles: u32) {
    let data = BLOCK * (cycles / 480);
    chunk(out, 0, b"RIFF", 36 + data);
    out[8..12].copy_from_slice(b"WAVE");
    format(out);
    chunk(out, 36, b"data", data);
}

// The bytes of a play's frames, as they are: no smoothing and no scaling. No play here makes more than 1,024 frames; the test says so
// to the checker.
pub(crate) fn frames<'a>(out: &'a mut [u8; 4096], sides: &[i16; 2048], made: u32) -> &'a [u8] {
    let end = 2 * (made.min(1024) as usize);
    for i in 0..end {
        little::put(out, 2 * i, Width::U16, sum::side(sides[i]));
    }
    &out[..2 * end]
}
