// Step 3 of a cycle, some cycles at once.
ghost use Rattle.std.specs.Prelude.{◌≡◌, ◌≤◌};
ghost use Rattle.leaps.specs.Envelope.{envelope_far, envelope_leap};

use crate::distance::NEVER;
use common::channel::Envelope;
use common::constants::ENVELOPE_CYCLE_COUNT;

pub(crate) fn far(e: Envelope) -> u32
    ensures { result ≡ envelope_far e }
{
    if e.on {
        return (ENVELOPE_CYCLE_COUNT - 1).saturating_sub(e.tick);
    }
    NEVER
}

// The tick of an envelope that is off goes round.
pub(crate) fn leap(e: Envelope, n: u32) -> Envelope
    requires { (e.tick ≤ 307218) × (n ≤ 153608) }
    ensures { result ≡ envelope_leap n e }
{
    Envelope {
        tick: (e.tick + n) % ENVELOPE_CYCLE_COUNT,
        ..e
    }
}
