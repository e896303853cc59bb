// A voice, some cycles at once.
ghost use Rattle.std.specs.Prelude.{◌≡◌, ◌≤◌};
ghost use Rattle.leaps.specs.Live.{live_far};
ghost use Rattle.leaps.specs.ChannelEnum.{Leapable, Playable, channel_leap, kind_far, leap_of, leapable, pitchable, swept_leap, tone_leap, voice_far, voice_leap};

use crate::distance::{NEVER, least};
use crate::{envelope, live, pitch, sample, sweep_modulate};
use common::channel::{Channel, Pitch};
use common::constants::ENVELOPE_CYCLE_COUNT;
use sweep::constants::SWEEP_SLOW_CYCLE_COUNT;
use voice::channel_enum;
use voice::channel_enum::{Kind, Voice};

// No sweep is further than this.
const FURTHEST: u32 = SWEEP_SLOW_CYCLE_COUNT - 1;

#[tactic(auto, unfolding(crate::specs::ChannelEnum::kind_far))]
fn kind_far(k: Kind) -> u32
    ensures { result ≡ kind_far k }
{
    match k {
        Kind::Swept { sweep, .. } => sweep_modulate::far(sweep),
        Kind::Wave { .. } | Kind::Noise { .. } => NEVER,
    }
}

// The cycles before the next one that changes a live counter, a level or its step, or the sweep.
pub fn far(v: Voice) -> u32
    ensures { result ≡ voice_far v }
{
    least(
        least(live::far(v.channel.live), envelope::far(v.channel.envelope)),
        kind_far(v.kind),
    )
}

fn channel_leap(c: Channel, n: u32) -> Channel
    requires { (n ≤ live_far c.live) × ((c.envelope.tick ≤ 307218) × (n ≤ 153608)) }
    ensures { result ≡ channel_leap n c }
{
    // Not `Channel { live, envelope, ..c }`: a play then takes 15 in 1,000 instructions more.
    let mut d = c;
    d.live = live::leap(c.live, n);
    d.envelope = envelope::leap(c.envelope, n);
    d
}

// A voice whose kind doesn't change is kept, and not built anew (docs/PERFORMANCE.md).

#[tactic(auto, unfolding(crate::specs::ChannelEnum::kind_far, crate::specs::ChannelEnum::kind_leap, crate::specs::ChannelEnum::swept_leap))]
fn swept_leap(v: Voice, n: u32) -> Voice
    requires { n ≤ kind_far v.kind }
    ensures { result ≡ swept_leap n v }
{
    match v.kind {
        Kind::Swept {
            bank,
            position,
            sweep,
        } => Voice {
            kind: Kind::Swept {
                bank,
                position,
                sweep: sweep_modulate::leap(sweep, n),
            },
            ..v
        },
        Kind::Wave { .. } | Kind::Noise { .. } => v,
    }
}

fn tone_leap(v: Voice, n: u32) -> Voice
    requires { Playable n v }
    ensures { result ≡ tone_leap n v }
{
    let k = v.kind;
    let p = v.channel.pitch;
    let mut c = channel_leap(v.channel, n);
    let s = pitch::leap(
        p,
        channel_enum::frequency(k, p.frequency),
        channel_enum::cycles_per_frequency_tick(k),
        n,
    );
    c.pitch.tick = s.pitch.tick;
    c.pitch.counter = s.pitch.counter;
    if s.samples > 0 {
        return Voice {
            channel: c,
            kind: sample::on(k, s.samples),
        };
    }
    Voice { channel: c, ..v }
}

fn all_leap(v: Voice, n: u32) -> Voice
    requires { Leapable n v }
    ensures { result ≡ voice_leap n v }
{
    tone_leap(swept_leap(v, n), n)
}

fn is_pitchable(p: Pitch, frequency: u16, period: u32) -> bool
    ensures { result ≡ pitchable period frequency p }
{
    (p.tick < period) & (frequency <= 2047) & (p.counter <= 2047)
}

// Whether a voice can go n cycles at once: no further than it is far, and with ticks and counters in range.
fn is_leapable(v: Voice, n: u32) -> bool
    ensures { result ≡ leapable n v }
{
    let p = v.channel.pitch;
    (n <= far(v))
        & (n <= FURTHEST)
        & (v.channel.envelope.tick < ENVELOPE_CYCLE_COUNT)
        & is_pitchable(
            p,
            channel_enum::frequency(v.kind, p.frequency),
            channel_enum::cycles_per_frequency_tick(v.kind),
        )
}

// n cycles on; the voice as it is, where it can't go them at once.
pub fn leap(v: Voice, n: u32) -> Voice
    ensures { result ≡ leap_of n v }
{
    if is_leapable(v, n) {
        return all_leap(v, n);
    }
    v
}
