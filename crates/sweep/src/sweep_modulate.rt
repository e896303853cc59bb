// Channel 5's sweep and modulation: the Rust's `SweepModulate`.
ghost use Rattle.std.specs.Prelude.{◌≡◌, get_or, pos};
ghost use Rattle.sweep.specs.SweepModulate.{sweep_write, modulate_once, sweep_once, sweep_due, sweep_step, sweep_in_range};

use crate::constants::{SWEEP_FAST_CYCLE_COUNT, SWEEP_SLOW_CYCLE_COUNT};
use common::channel::Channel;
use common::{bits, channel};

#[derive(Clone, Copy)]
pub struct SweepModulate {
    pub step: u32,
    pub last: u16,
    pub current: u16,
    pub next: u16,
    pub interval: u8,
    pub shift: u8,
    pub counter: u8,
    pub index: u8,
    pub enable: bool,
    pub looped: bool,
    pub modulate: bool,
    pub slow: bool,
    pub up: bool,
}

// The sweep after a step, and channel 5's record, which an overflow stops.
#[derive(Clone, Copy)]
pub struct Stepped {
    pub sweep: SweepModulate,
    pub channel: Channel,
}

#[tactic(auto, unfolding(crate::specs::SweepModulate::sweep_write, crate::specs::SweepModulate::restart, crate::specs::SweepModulate::rewrite, crate::specs::SweepModulate::write_mode, crate::specs::SweepModulate::write_sweep))]
pub fn set_u8(s: SweepModulate, offset: u32, value: u8) -> SweepModulate
    ensures { result ≡ sweep_write offset value s }
{
    let mut t = s;
    match offset {
        0x00 => {
            t.step = 0;
            t.index = 0;
        }
        0x08 => {
            t.last = bits::with_low(s.last, value);
            t.next = bits::with_low(s.next, value);
        }
        0x0C => {
            t.last = bits::with_high(s.last, value);
            t.next = bits::with_high(s.next, value);
        }
        0x14 => {
            t.modulate = bits::flag(value, 4);
            t.looped = bits::flag(value, 5);
            t.enable = bits::flag(value, 6);
        }
        0x1C => {
            t.shift = bits::field(value, 0, 3);
            t.up = bits::flag(value, 3);
            t.interval = bits::field(value, 4, 3);
            t.slow = bits::flag(value, 7);
        }
        _ => {}
    }
    t
}

fn entry(modulation_data: &[i8; 32], index: u8) -> i8
    ensures { result ≡ get_or modulation_data.now index (pos 0) }
{
    modulation_data
        .get(usize::from(index))
        .copied()
        .unwrap_or(0)
}

#[tactic(auto, unfolding(crate::specs::SweepModulate::modulate_once))]
fn modulate(s: SweepModulate, modulation_data: &[i8; 32]) -> SweepModulate
    ensures { result ≡ modulate_once modulation_data.now s }
{
    let mut t = s;
    t.next = (s.last % 2048 + bits::addend(entry(modulation_data, s.index))) % 2048;
    if s.index < 31 {
        t.index = s.index + 1;
        return t;
    }
    if s.looped {
        t.index = (s.index % 32 + 1) % 32;
        return t;
    }
    t.enable = false;
    t
}

#[tactic(auto, unfolding(crate::specs::SweepModulate::sweep_once))]
fn sweep(s: SweepModulate, channel: Channel) -> Stepped
    ensures { result ≡ sweep_once channel s }
{
    let part = bits::shifted(s.current, s.shift);
    let mut t = s;
    if !s.up {
        t.next = s.current - part;
        return Stepped { sweep: t, channel };
    }
    let sum = (s.current as u32) + (part as u32);
    if sum > 2047 {
        return Stepped {
            sweep: t,
            channel: channel::play_off(channel),
        };
    }
    t.next = sum as u16;
    Stepped { sweep: t, channel }
}

#[tactic(auto, unfolding(crate::specs::SweepModulate::sweep_due))]
fn increment_sweep_mod(s: SweepModulate, channel: Channel, modulation_data: &[i8; 32]) -> Stepped
    ensures { result ≡ sweep_due modulation_data.now channel s }
{
    let mut t = s;
    t.current = s.next;
    if channel.live.playing & s.enable & (s.interval != 0) {
        if s.modulate {
            return Stepped {
                sweep: modulate(t, modulation_data),
                channel,
            };
        }
        return sweep(t, channel);
    }
    Stepped { sweep: t, channel }
}

// Step 4 of a cycle.
#[tactic(auto, unfolding(crate::specs::SweepModulate::sweep_step, crate::specs::SweepModulate::sweep_ticked))]
fn sweep_step(s: SweepModulate, channel: Channel, modulation_data: &[i8; 32]) -> Stepped
    ensures { result ≡ sweep_step modulation_data.now channel s }
{
    let period = if s.slow {
        SWEEP_SLOW_CYCLE_COUNT
    } else {
        SWEEP_FAST_CYCLE_COUNT
    };
    let mut t = s;
    if s.step < period - 1 {
        t.step = s.step + 1;
        return Stepped { sweep: t, channel };
    }
    t.step = 0;
    if (s.counter as u32) + 1 < (s.interval as u32) {
        t.counter = s.counter + 1;
        return Stepped { sweep: t, channel };
    }
    t.counter = 0;
    increment_sweep_mod(t, channel, modulation_data)
}

// The Rust's `SweepModulate::step`: channel 5's record is lent, and an overflowing sweep stops it there.
pub fn step(s: SweepModulate, channel: &mut Channel, modulation_data: &[i8; 32]) -> SweepModulate
    ensures { (result ≡ (sweep_step modulation_data.now channel.old s).sweep)
        × (channel.new ≡ (sweep_step modulation_data.now channel.old s).channel) }
{
    let t = sweep_step(s, *channel, modulation_data);
    *channel = t.channel;
    t.sweep
}

// The step with the record lent, for callers that hold it by value: the record stands in a local meanwhile. Both forms stay:
// docs/DECISIONS.md names them, and `lent_record_kept` is about the other.
pub fn step_lent(s: SweepModulate, channel: Channel, modulation_data: &[i8; 32]) -> Stepped
    ensures { result ≡ sweep_step modulation_data.now channel s }
{
    let mut c = channel;
    let t = step(s, &mut c, modulation_data);
    Stepped {
        sweep: t,
        channel: c,
    }
}

#[tactic(auto, unfolding(crate::specs::SweepModulate::sweep_in_range))]
pub fn in_range(s: SweepModulate) -> bool
    ensures { result ≡ sweep_in_range s }
{
    (s.step <= 153_608)
        & (s.last <= 2047)
        & (s.current <= 2047)
        & (s.next <= 2047)
        & (s.interval <= 7)
        & (s.shift <= 7)
        & (s.counter <= 6)
        & (s.index <= 31)
}
