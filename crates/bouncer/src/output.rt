// The lines.
ghost use Rattle.std.specs.Prelude.{◌≤◌};

use report::out::Unwritten;
use report::streams::STDOUT_FILENO;
use report::text::Text;
use report::{out, sum};

// The sides of a span's frames, as they are listed: the mix, then channels 0 to 5.
pub(crate) type Sides = [[i16; 512]; 7];

// Room for a line of each frame of a span: a line has at most 104 bytes.
pub(crate) type Lines = Text<32768>;

// Edition, entries, cycles, frames.
pub(crate) fn heading(log: &[u8], count: u32, cycles: u32) -> Result<(), Unwritten> {
    let mut text = Text::<64>::new();
    text.labelled(b"stems ", u64::from(little::u16_at(log, 0)));
    text.labelled(b" entries ", u64::from(count));
    text.labelled(b" cycles ", u64::from(cycles));
    text.labelled(b" frames ", u64::from(cycles / 480));
    text.words(b"\n");
    out::put(STDOUT_FILENO, text.as_slice())
}

// The left and the right side of a frame, k being where they stand.
fn pair(text: &mut Lines, sides: &[i16; 512], k: usize)
    requires { k ≤ 510 }
{
    text.labelled(b" ", u64::from(sum::side(sides[k])));
    text.labelled(b" ", u64::from(sum::side(sides[k + 1])));
}

// Number, cycle, and the pairs of sides that stand at k. Power-on has output counter 0, so frame n is made at cycle 480 × n.
pub(crate) fn line(text: &mut Lines, n: u32, k: usize, all: &Sides)
    requires { k ≤ 510 }
{
    text.number(u64::from(n));
    text.labelled(b" ", 480 * u64::from(n));
    for sides in all {
        pair(text, sides, k);
    }
    text.words(b"\n");
}
