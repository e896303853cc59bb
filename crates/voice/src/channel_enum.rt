// A voice: a common record and its kind. The Rust's `ChannelType`.

ghost use Rattle.std.specs.Prelude.{◌≡◌, ◌≤◌};
ghost use Rattle.voice.specs.ChannelEnum.{stop_voice, is_tap, tap_of, wave_write, noise_write, kind_write, voice_write, period_of, frequency_of, clocked, next_sample, step_auto_stop, step_frequency, step_envelope, step_sweep, is_in, common_offsets, has_offset, sample_of, heard, wave_in_range, swept_in_range, noise_in_range};

use crate::constants::{
    NOISE_CHANNEL_BASE_FREQUENCY_CYCLE_COUNT, WAVE_CHANNEL_BASE_FREQUENCY_CYCLE_COUNT,
};
use crate::waveform;
use common::channel::Channel;
use common::{bits, channel};
use sweep::sweep_modulate;
use sweep::sweep_modulate::SweepModulate;

#[derive(Clone, Copy)]
pub enum Kind {
    Wave {
        bank: u8,
        position: u8,
    },
    Swept {
        bank: u8,
        position: u8,
        sweep: SweepModulate,
    },
    Noise {
        shift: u16,
        tap: u8,
        output: bool,
    },
}

#[derive(Clone, Copy)]
pub struct Voice {
    pub channel: Channel,
    pub kind: Kind,
}

// Which of the five waves a wave kind reads, and where in it.
#[derive(Clone, Copy)]
pub struct Reading {
    pub bank: u8,
    pub position: u8,
}

const TAPS: [u8; 8] = [14, 10, 13, 4, 8, 6, 9, 11];

fn tap_bit(value: u8) -> u8
    ensures { result ≡ tap_of value }
{
    let code = usize::from(bits::field(value, 4, 3));
    TAPS[code]
}

pub fn is_tap(t: u32) -> bool
    ensures { result ≡ is_tap t }
{
    TAPS.iter().any(|&tap| t == u32::from(tap))
}

#[tactic(auto, unfolding(crate::specs::ChannelEnum::wave_write))]
fn wave_set_u8(reading: Reading, offset: u32, value: u8) -> Reading
    ensures { result ≡ wave_write offset value reading.bank reading.position }
{
    match offset {
        0x00 => Reading {
            position: 0,
            ..reading
        },
        0x18 => Reading {
            bank: bits::field(value, 0, 3),
            ..reading
        },
        _ => reading,
    }
}

#[tactic(auto, unfolding(crate::specs::ChannelEnum::noise_write))]
fn noise_set_u8(shift: u16, tap: u8, output: bool, offset: u32, value: u8) -> Kind
    ensures { result ≡ noise_write offset value shift tap output }
{
    match offset {
        0x00 => Kind::Noise {
            shift: 0,
            tap,
            output: false,
        },
        0x14 => Kind::Noise {
            shift,
            tap: tap_bit(value),
            output,
        },
        _ => Kind::Noise { shift, tap, output },
    }
}

#[tactic(auto, unfolding(crate::specs::ChannelEnum::kind_write))]
fn kind_set_u8(kind: Kind, offset: u32, value: u8) -> Kind
    ensures { result ≡ kind_write offset value kind }
{
    match kind {
        Kind::Wave { bank, position } => {
            let r = wave_set_u8(Reading { bank, position }, offset, value);
            Kind::Wave {
                bank: r.bank,
                position: r.position,
            }
        }
        Kind::Swept {
            bank,
            position,
            sweep,
        } => {
            let r = wave_set_u8(Reading { bank, position }, offset, value);
            Kind::Swept {
                bank: r.bank,
                position: r.position,
                sweep: sweep_modulate::set_u8(sweep, offset, value),
            }
        }
        Kind::Noise { shift, tap, output } => noise_set_u8(shift, tap, output, offset, value),
    }
}

pub fn stop_voice(v: Voice) -> Voice
    ensures { result ≡ stop_voice v }
{
    let c = v.channel;
    let mut w = v;
    w.channel = channel::play_off(c);
    w
}

#[tactic(auto, unfolding(crate::specs::ChannelEnum::voice_write))]
pub fn set_u8(v: Voice, offset: u32, value: u8) -> Voice
    ensures { result ≡ voice_write offset value v }
{
    let c = v.channel;
    let k = v.kind;
    Voice {
        channel: channel::set_u8(c, offset, value),
        kind: kind_set_u8(k, offset, value),
    }
}

fn is_common(offset: u32) -> bool
    ensures { result ≡ is_in offset common_offsets }
{
    matches!(offset, 0x00 | 0x04 | 0x08 | 0x0C | 0x10 | 0x14)
}

// Whether a channel of this kind has a register there: what the matches of `set_u8` have an arm for.
#[tactic(auto, unfolding(crate::specs::ChannelEnum::offsets_of))]
pub fn has_offset(kind: Kind, offset: u32) -> bool
    ensures { result ≡ has_offset offset kind }
{
    let common = is_common(offset);
    match kind {
        Kind::Wave { .. } => (offset == 0x18) | common,
        Kind::Swept { .. } => (offset == 0x1C) | ((offset == 0x18) | common),
        Kind::Noise { .. } => common,
    }
}

#[tactic(auto, unfolding(crate::specs::ChannelEnum::period_of))]
pub fn cycles_per_frequency_tick(kind: Kind) -> u32
    ensures { result ≡ period_of kind }
{
    match kind {
        Kind::Wave { .. } | Kind::Swept { .. } => WAVE_CHANNEL_BASE_FREQUENCY_CYCLE_COUNT,
        Kind::Noise { .. } => NOISE_CHANNEL_BASE_FREQUENCY_CYCLE_COUNT,
    }
}

#[tactic(auto, unfolding(crate::specs::ChannelEnum::frequency_of))]
pub fn frequency(kind: Kind, written: u16) -> u16
    ensures { result ≡ frequency_of written kind }
{
    match kind {
        Kind::Swept { sweep, .. } => sweep.current,
        Kind::Wave { .. } | Kind::Noise { .. } => written,
    }
}

#[tactic(auto, unfolding(crate::specs::ChannelEnum::clocked))]
fn increment_noise(shift: u16, tap: u8) -> Kind
    ensures { result ≡ clocked shift tap }
{
    let source = bits::shifted(shift, 7) % 2;
    let tapped = bits::shifted(shift, tap) % 2;
    let moved = (shift % 16384) * 2;
    if source == tapped {
        Kind::Noise {
            shift: moved + 1,
            tap,
            output: true,
        }
    } else {
        Kind::Noise {
            shift: moved,
            tap,
            output: false,
        }
    }
}

#[tactic(auto, unfolding(crate::specs::ChannelEnum::next_sample))]
pub fn increment_sample(kind: Kind) -> Kind
    ensures { result ≡ next_sample kind }
{
    match kind {
        Kind::Wave { bank, position } => Kind::Wave {
            bank,
            position: (position % 32 + 1) % 32,
        },
        Kind::Swept {
            bank,
            position,
            sweep,
        } => Kind::Swept {
            bank,
            position: (position % 32 + 1) % 32,
            sweep,
        },
        Kind::Noise { shift, tap, .. } => increment_noise(shift, tap),
    }
}

#[tactic(auto, unfolding(crate::specs::ChannelEnum::step_auto_stop))]
pub fn step_auto_deactivate(v: Voice) -> Voice
    ensures { result ≡ step_auto_stop v }
{
    let mut c = v.channel;
    c.live = channel::live_step(c.live);
    let mut w = v;
    w.channel = c;
    w
}

pub fn step_sampling_frequency(v: Voice) -> Voice
    ensures { result ≡ step_frequency v }
{
    let mut c = v.channel;
    let kind = v.kind;
    let pitch = c.pitch;
    let p = channel::pitch_step(
        pitch,
        frequency(kind, pitch.frequency),
        cycles_per_frequency_tick(kind),
    );
    // what moved, and not the whole pitch, whose eight bytes would be put together first (docs/PERFORMANCE.md)
    c.pitch.tick = p.pitch.tick;
    c.pitch.counter = p.pitch.counter;
    if p.due {
        return Voice {
            channel: c,
            kind: increment_sample(kind),
        };
    }
    let mut w = v;
    w.channel = c;
    w
}

#[tactic(auto, unfolding(crate::specs::ChannelEnum::step_envelope))]
pub fn step_envelope(v: Voice) -> Voice
    ensures { result ≡ step_envelope v }
{
    let mut c = v.channel;
    c.envelope = channel::envelope_step(c.envelope);
    let mut w = v;
    w.channel = c;
    w
}

#[tactic(auto, unfolding(crate::specs::ChannelEnum::step_sweep_of))]
pub fn step_sweep_modulate(v: Voice, modulation_data: &[i8; 32]) -> Voice
    ensures { result ≡ step_sweep modulation_data.now v }
{
    match v.kind {
        Kind::Swept {
            bank,
            position,
            sweep,
        } => {
            let t = sweep_modulate::step_lent(sweep, v.channel, modulation_data);
            Voice {
                channel: t.channel,
                kind: Kind::Swept {
                    bank,
                    position,
                    sweep: t.sweep,
                },
            }
        }
        Kind::Wave { .. } | Kind::Noise { .. } => v,
    }
}

#[tactic(auto, unfolding(crate::specs::ChannelEnum::sample_of))]
fn output(kind: Kind, waves: &[u8; 160]) -> u8
    ensures { result ≡ sample_of waves.now kind }
{
    match kind {
        Kind::Wave { bank, position } | Kind::Swept { bank, position, .. } => {
            waveform::get_indexed(waves, bank, position)
        }
        Kind::Noise { output, .. } => if output { 63 } else { 0 },
    }
}

// What a voice adds to the side of which `volume` is the volume. Whatever its bytes, six of them fit a u32.
#[tactic(auto, unfolding(crate::specs::ChannelEnum::heard))]
pub fn sample(v: Voice, volume: u8, waves: &[u8; 160]) -> u32
    ensures { (result ≡ heard waves.now volume v) × (result ≤ 1036447) }
{
    let c = v.channel;
    let kind = v.kind;
    if !c.live.playing {
        return 0;
    }
    channel::sample_side(c.envelope.level, volume, output(kind, waves))
}

#[tactic(auto, unfolding(crate::specs::ChannelEnum::wave_in_range, crate::specs::ChannelEnum::wave_kind_in_range))]
pub fn wave_in_range(v: Voice) -> bool
    ensures { result ≡ wave_in_range v }
{
    match v.kind {
        Kind::Wave { bank, position } => {
            channel::in_range(v.channel, 3) & ((bank <= 7) & (position <= 31))
        }
        _ => false,
    }
}

#[tactic(auto, unfolding(crate::specs::ChannelEnum::swept_in_range, crate::specs::ChannelEnum::swept_kind_in_range))]
pub fn swept_in_range(v: Voice) -> bool
    ensures { result ≡ swept_in_range v }
{
    match v.kind {
        Kind::Swept {
            bank,
            position,
            sweep,
        } => {
            channel::in_range(v.channel, 3)
                & ((bank <= 7) & (position <= 31) & sweep_modulate::in_range(sweep))
        }
        _ => false,
    }
}

#[tactic(auto, unfolding(crate::specs::ChannelEnum::noise_in_range, crate::specs::ChannelEnum::noise_kind_in_range))]
pub fn noise_in_range(v: Voice) -> bool
    ensures { result ≡ noise_in_range v }
{
    match v.kind {
        Kind::Noise { shift, tap, output } => {
            channel::in_range(v.channel, 39)
                & ((shift <= 32_767) & is_tap(u32::from(tap)) & (output == (shift % 2 == 1)))
        }
        _ => false,
    }
}
