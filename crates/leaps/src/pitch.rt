// Step 2 of a cycle, some cycles at once, but for the samples themselves.
ghost use Rattle.std.specs.Prelude.{◌≡◌, ◌≤◌};
ghost use Rattle.common.specs.Channel.{with_tick_counter};
ghost use Rattle.leaps.specs.Pitch.{Pitchable, pitch_far, pitch_leap, pitch_after};

use common::channel::Pitch;

// A pitch after some cycles, and how many samples they brought.
#[derive(Clone, Copy)]
pub struct Sampled {
    pub pitch: Pitch,
    pub samples: u32,
}

fn far(p: Pitch, frequency: u16, period: u32) -> u32
    requires { Pitchable period frequency p }
    ensures { result ≡ pitch_far period frequency p }
{
    let ticks = 2047u32.saturating_sub(u32::from(frequency) + u32::from(p.counter));
    (period - 1).saturating_sub(p.tick) + period * ticks
}

// n cycles that bring no sample.
fn counted(p: Pitch, frequency: u16, period: u32, n: u32) -> Pitch
    requires { (Pitchable period frequency p) × (n ≤ pitch_far period frequency p) }
    ensures { result ≡ pitch_leap period n p }
{
    let tick = p.tick + n;
    Pitch {
        tick: tick % period,
        counter: p.counter + (tick / period) as u16,
        ..p
    }
}

// A pitch right after a sample.
fn restarted(p: Pitch) -> Pitch
    ensures { result ≡ with_tick_counter p 0 0 }
{
    Pitch {
        tick: 0,
        counter: 0,
        ..p
    }
}

// n cycles, from sample to sample.
pub(crate) fn leap(p: Pitch, frequency: u16, period: u32, n: u32) -> Sampled
    requires { Pitchable period frequency p }
    ensures { result ≡ pitch_after period frequency n p }
{
    let first = far(p, frequency, period);
    if n <= first {
        return Sampled {
            pitch: counted(p, frequency, period, n),
            samples: 0,
        };
    }
    let q = restarted(p);
    let every = far(q, frequency, period) + 1;
    let left = n - first - 1;
    Sampled {
        pitch: counted(q, frequency, period, left % every),
        samples: 1 + left / every,
    }
}
