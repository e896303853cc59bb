// Step 1 of a cycle, some cycles at once.
ghost use Rattle.std.specs.Prelude.{◌≡◌, ◌≤◌};
ghost use Rattle.leaps.specs.Live.{live_far, live_leap};

use crate::distance::NEVER;
use common::channel::Live;
use common::constants::SOUND_LIVE_INTERVAL_CYCLE_COUNT;

pub(crate) fn far(l: Live) -> u32
    ensures { result ≡ live_far l }
{
    if l.playing & l.auto {
        return (SOUND_LIVE_INTERVAL_CYCLE_COUNT - 1).saturating_sub(l.tick);
    }
    NEVER
}

pub(crate) fn leap(l: Live, n: u32) -> Live
    requires { n ≤ live_far l }
    ensures { result ≡ live_leap n l }
{
    if !(l.playing & l.auto) {
        return l;
    }
    Live {
        tick: l.tick + n,
        ..l
    }
}
