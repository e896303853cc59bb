// The six voices, many cycles at once.
ghost use Rattle.std.specs.Prelude.{◌≡◌, map};
ghost use Rattle.leaps.specs.ChannelEnum.{leap_of};
ghost use Rattle.quick.specs.Voices.{voices_far};

use leaps::channel_enum;
use leaps::distance::{NEVER, least};
use voice::channel_enum::Voice;
use vsu::unit::Engine;

// Fewer cycles than these cost less one by one (docs/PERFORMANCE.md).
const FEW: u32 = 4;

// How many cycles all six can go at once.
fn far(voices: [Voice; 6]) -> u32
    ensures { result ≡ voices_far voices }
{
    let mut nearest = NEVER;
    for v in &voices {
        nearest = least(nearest, channel_enum::far(*v));
    }
    nearest
}

fn leap(voices: [Voice; 6], n: u32) -> [Voice; 6]
    ensures { result ≡ map (leap_of n) voices }
{
    let mut out = voices;
    for v in &mut out {
        *v = channel_enum::leap(*v, n);
    }
    out
}

// As many cycles at once as nothing is due in, then an ordinary one, in which something is.
pub(crate) struct ByLeaps;

impl Engine for ByLeaps {
    fn cycles(voices: [Voice; 6], modulation: &[i8; 32], n: u32) -> [Voice; 6] {
        if n < FEW {
            return six::unit::cycles(voices, modulation, n);
        }
        let mut out = voices;
        let mut i = 0;
        while i < n {
            let part = (n - i).min(far(out));
            let there = leap(out, part);
            out = there;
            i += part;
            if i < n {
                let next = six::unit::cycles(out, modulation, 1);
                out = next;
                i += 1;
            }
        }
        out
    }
}
