// Step 4 of a cycle, some cycles at once.
ghost use Rattle.std.specs.Prelude.{◌≡◌, ◌≤◌};
ghost use Rattle.leaps.specs.SweepModulate.{sweep_far, sweep_leap};

use sweep::constants::{SWEEP_FAST_CYCLE_COUNT, SWEEP_SLOW_CYCLE_COUNT};
use sweep::sweep_modulate::SweepModulate;

// A step counter past a period that has become shorter is due at once.
pub(crate) fn far(s: SweepModulate) -> u32
    ensures { result ≡ sweep_far s }
{
    if s.slow {
        return (SWEEP_SLOW_CYCLE_COUNT - 1).saturating_sub(s.step);
    }
    (SWEEP_FAST_CYCLE_COUNT - 1).saturating_sub(s.step)
}

pub(crate) fn leap(s: SweepModulate, n: u32) -> SweepModulate
    requires { n ≤ sweep_far s }
    ensures { result ≡ sweep_leap n s }
{
    SweepModulate {
        step: s.step + n,
        ..s
    }
}
