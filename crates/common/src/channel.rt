// What each of the six voices has: the Rust's `Channel`, in the parts that a step touches.
ghost use Rattle.std.specs.Prelude.{◌≡◌, ◌≤◌};
ghost use Rattle.common.specs.Channel.{play_off, write_interval, write_volumes, write_low, write_high, write_envelope, write_envelope_mode, channel_write, live_step, pitch_step, next_level, envelope_step, amplitude_of, side, live_in_range, pitch_in_range, envelope_in_range, channel_in_range};

use crate::bits;
use crate::constants::{ENVELOPE_CYCLE_COUNT, SOUND_LIVE_INTERVAL_CYCLE_COUNT};

#[derive(Clone, Copy)]
pub struct Live {
    pub tick: u32,
    pub interval: u8,
    pub counter: u8,
    pub auto: bool,
    pub playing: bool,
}

#[derive(Clone, Copy)]
pub struct Pitch {
    pub tick: u32,
    pub frequency: u16,
    pub counter: u16,
}

#[derive(Clone, Copy)]
pub struct Envelope {
    pub tick: u32,
    pub interval: u8,
    pub step: u8,
    pub level: u8,
    pub reload: u8,
    pub up: bool,
    pub on: bool,
    pub looped: bool,
}

// In this order no step leaves eight bytes alone beside those that it moves: such eight the compiler would carry as one number, taken apart
// and put together in each cycle (docs/PERFORMANCE.md).
#[derive(Clone, Copy)]
pub struct Channel {
    pub envelope: Envelope,
    pub pitch: Pitch,
    pub live: Live,
    pub left: u8,
    pub right: u8,
}

// A pitch after a step, and whether the next sample is due.
#[derive(Clone, Copy)]
pub struct Pitched {
    pub pitch: Pitch,
    pub due: bool,
}

// "play off": the one function that stops a record.
pub fn play_off(c: Channel) -> Channel
    ensures { result ≡ play_off c }
{
    Channel {
        live: Live {
            playing: false,
            ..c.live
        },
        ..c
    }
}

#[tactic(auto, unfolding(crate::specs::Channel::write_interval))]
fn set_live(c: Channel, value: u8) -> Channel
    ensures { result ≡ write_interval value c }
{
    let interval = bits::field(value, 0, 5);
    Channel {
        live: Live {
            interval,
            counter: interval,
            auto: bits::flag(value, 5),
            playing: bits::flag(value, 7),
            ..c.live
        },
        pitch: Pitch {
            counter: 0,
            ..c.pitch
        },
        envelope: Envelope {
            step: 0,
            ..c.envelope
        },
        ..c
    }
}

#[tactic(auto, unfolding(crate::specs::Channel::write_volumes))]
fn set_volume(c: Channel, value: u8) -> Channel
    ensures { result ≡ write_volumes value c }
{
    Channel {
        left: bits::field(value, 4, 4),
        right: bits::field(value, 0, 4),
        ..c
    }
}

#[tactic(auto, unfolding(crate::specs::Channel::write_low))]
fn set_low(c: Channel, value: u8) -> Channel
    ensures { result ≡ write_low value c }
{
    Channel {
        pitch: Pitch {
            frequency: bits::with_low(c.pitch.frequency, value),
            ..c.pitch
        },
        ..c
    }
}

#[tactic(auto, unfolding(crate::specs::Channel::write_high))]
fn set_high(c: Channel, value: u8) -> Channel
    ensures { result ≡ write_high value c }
{
    Channel {
        pitch: Pitch {
            frequency: bits::with_high(c.pitch.frequency, value),
            ..c.pitch
        },
        ..c
    }
}

#[tactic(auto, unfolding(crate::specs::Channel::write_envelope))]
fn set_envelope(c: Channel, value: u8) -> Channel
    ensures { result ≡ write_envelope value c }
{
    let reload = bits::field(value, 4, 4);
    Channel {
        envelope: Envelope {
            interval: bits::field(value, 0, 3),
            up: bits::flag(value, 3),
            reload,
            level: reload,
            ..c.envelope
        },
        ..c
    }
}

#[tactic(auto, unfolding(crate::specs::Channel::write_envelope_mode))]
fn set_envelope_mode(c: Channel, value: u8) -> Channel
    ensures { result ≡ write_envelope_mode value c }
{
    Channel {
        envelope: Envelope {
            on: bits::flag(value, 0),
            looped: bits::flag(value, 1),
            ..c.envelope
        },
        ..c
    }
}

#[tactic(auto, unfolding(crate::specs::Channel::channel_write))]
pub fn set_u8(c: Channel, offset: u32, value: u8) -> Channel
    ensures { result ≡ channel_write offset value c }
{
    match offset {
        0x00 => set_live(c, value),
        0x04 => set_volume(c, value),
        0x08 => set_low(c, value),
        0x0C => set_high(c, value),
        0x10 => set_envelope(c, value),
        0x14 => set_envelope_mode(c, value),
        _ => c,
    }
}

// Step 1 of a cycle.
#[tactic(auto, unfolding(crate::specs::Channel::live_step, crate::specs::Channel::live_ticked))]
pub fn live_step(l: Live) -> Live
    ensures { result ≡ live_step l }
{
    let mut m = l;
    if !(l.playing & l.auto) {
        return m;
    }
    if l.tick < SOUND_LIVE_INTERVAL_CYCLE_COUNT - 1 {
        m.tick = l.tick + 1;
        return m;
    }
    m.tick = 0;
    if l.counter < l.interval {
        m.counter = l.counter + 1;
        return m;
    }
    m.counter = 0;
    m.playing = false;
    m
}

// Step 2 of a cycle, but for the sample itself.
#[tactic(auto, unfolding(crate::specs::Channel::pitch_step, crate::specs::Channel::pitch_ticked))]
pub fn pitch_step(p: Pitch, frequency: u16, period: u32) -> Pitched
    ensures { result ≡ pitch_step period frequency p }
{
    let mut q = p;
    if (p.tick as u64) + 1 < period as u64 {
        q.tick = p.tick + 1;
        return Pitched {
            pitch: q,
            due: false,
        };
    }
    q.tick = 0;
    if (p.counter as u32) + (frequency as u32) < 2047 {
        q.counter = p.counter + 1;
        return Pitched {
            pitch: q,
            due: false,
        };
    }
    q.counter = 0;
    Pitched {
        pitch: q,
        due: true,
    }
}

#[tactic(auto, unfolding(crate::specs::Channel::next_level))]
fn next_level(e: Envelope) -> u8
    ensures { result ≡ next_level e }
{
    if e.up {
        if e.level < 15 {
            return e.level + 1;
        }
    } else {
        if e.level > 0 {
            return e.level - 1;
        }
    }
    if e.looped { e.reload } else { e.level }
}

// Step 3 of a cycle.
#[tactic(auto, unfolding(crate::specs::Channel::envelope_step, crate::specs::Channel::envelope_ticked))]
pub fn envelope_step(e: Envelope) -> Envelope
    ensures { result ≡ envelope_step e }
{
    let mut f = e;
    if e.tick < ENVELOPE_CYCLE_COUNT - 1 {
        f.tick = e.tick + 1;
        return f;
    }
    f.tick = 0;
    if !e.on {
        return f;
    }
    if e.step < e.interval {
        f.step = e.step + 1;
        return f;
    }
    f.step = 0;
    f.level = next_level(e);
    f
}

#[tactic(auto, unfolding(crate::specs::Channel::amplitude_of))]
fn amplitude(level: u8, volume: u8) -> u32
    ensures { result ≡ amplitude_of level volume }
{
    let product = (level as u32) * (volume as u32);
    if (0 < level) & (0 < volume) {
        return product / 8 + 1;
    }
    product / 8
}

// One side of a voice. Whatever the bytes, six of them fit a u32.
#[tactic(auto, unfolding(crate::specs::Channel::side))]
pub fn sample_side(level: u8, volume: u8, output: u8) -> u32
    ensures { (result ≡ side level volume output) × (result ≤ 1036447) }
{
    amplitude(level, volume) * (output as u32) / 2
}

#[tactic(auto, unfolding(crate::specs::Channel::live_in_range))]
fn live_in_range(l: Live) -> bool
    ensures { result ≡ live_in_range l }
{
    (l.tick <= 76_804) & (l.interval <= 31) & (l.counter <= 31)
}

#[tactic(auto, unfolding(crate::specs::Channel::pitch_in_range))]
fn pitch_in_range(p: Pitch, most: u32) -> bool
    ensures { result ≡ pitch_in_range most p }
{
    (p.tick <= most) & (p.frequency <= 2047) & (p.counter <= 2047)
}

#[tactic(auto, unfolding(crate::specs::Channel::envelope_in_range))]
fn envelope_in_range(e: Envelope) -> bool
    ensures { result ≡ envelope_in_range e }
{
    (e.tick <= 307_218) & (e.interval <= 7) & (e.step <= 7) & (e.level <= 15) & (e.reload <= 15)
}

// `most` is the largest tick: 3 for a wave, 39 for noise.
#[tactic(auto, unfolding(crate::specs::Channel::channel_in_range))]
pub fn in_range(c: Channel, most: u32) -> bool
    ensures { result ≡ channel_in_range most c }
{
    let live = c.live;
    let pitch = c.pitch;
    let envelope = c.envelope;
    live_in_range(live)
        & pitch_in_range(pitch, most)
        & envelope_in_range(envelope)
        & (c.left <= 15)
        & (c.right <= 15)
}
