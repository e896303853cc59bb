// The six voices: what the Rust's `VSU` does with its channels, and the mutes.
ghost use Rattle.std.specs.Prelude.{◌≡◌, map};
ghost use Rattle.voice.specs.ChannelEnum.{stop_voice, step_auto_stop, step_frequency, step_envelope};
ghost use Rattle.six.specs.Core.{off_channel, off_swept, off_voices, any_plays, sweep_fifth, voices_after, voices_after_all, sums_of, audible, silenced, voices_in_range};

use common::bits;
use common::channel::{Channel, Envelope, Live, Pitch};
use sweep::sweep_modulate::SweepModulate;
use voice::channel_enum;
use voice::channel_enum::{
    Kind, Voice, step_auto_deactivate, step_envelope, step_sampling_frequency,
};

// What the playing voices add to each side.
#[derive(Clone, Copy)]
pub struct Sums {
    pub left: u32,
    pub right: u32,
}

fn new_channel() -> Channel
    ensures { result ≡ off_channel }
{
    let live = Live {
        tick: 0,
        interval: 0,
        counter: 0,
        auto: false,
        playing: false,
    };
    let pitch = Pitch {
        tick: 0,
        frequency: 0,
        counter: 0,
    };
    let envelope = Envelope {
        tick: 0,
        interval: 0,
        step: 0,
        level: 0,
        reload: 0,
        up: false,
        on: false,
        looped: false,
    };
    Channel {
        live,
        pitch,
        envelope,
        left: 0,
        right: 0,
    }
}

fn new_pcm_ch5() -> Voice
    ensures { result ≡ off_swept }
{
    let sweep = SweepModulate {
        step: 0,
        last: 0,
        current: 0,
        next: 0,
        interval: 0,
        shift: 0,
        counter: 0,
        index: 0,
        enable: false,
        looped: false,
        modulate: false,
        slow: false,
        up: false,
    };
    Voice {
        channel: new_channel(),
        kind: Kind::Swept {
            bank: 0,
            position: 0,
            sweep,
        },
    }
}

// Power-on.
pub fn new() -> [Voice; 6]
    ensures { result ≡ off_voices }
{
    let channel = new_channel();
    let wave = Voice {
        channel,
        kind: Kind::Wave {
            bank: 0,
            position: 0,
        },
    };
    let swept = new_pcm_ch5();
    let noise = Voice {
        channel,
        kind: Kind::Noise {
            shift: 0,
            tap: 14,
            output: false,
        },
    };
    [wave, wave, wave, wave, swept, noise]
}

pub fn playback_occuring(voices: [Voice; 6]) -> bool
    ensures { result ≡ any_plays voices }
{
    voices.iter().any(|v| v.channel.live.playing)
}

pub fn stop_all(voices: [Voice; 6]) -> [Voice; 6]
    ensures { result ≡ map stop_voice voices }
{
    voices.map(channel_enum::stop_voice)
}

// Steps 1 to 3 of a cycle: each voice is fetched once. Not a loop and not `voices.map(..)`, with which a cycle takes 215 ns in place of 26: the
// three steps are too large to unroll, and each voice then goes through memory. Six elements inside `[..]` take 35 ns. A voice's steps are three
// calls for the same reason (docs/PERFORMANCE.md).
fn step_voices(voices: [Voice; 6]) -> [Voice; 6]
    ensures { result ≡ map (λ v. step_envelope (step_frequency (step_auto_stop v))) voices }
{
    let mut out = voices;
    out[0] = step_envelope(step_sampling_frequency(step_auto_deactivate(out[0])));
    out[1] = step_envelope(step_sampling_frequency(step_auto_deactivate(out[1])));
    out[2] = step_envelope(step_sampling_frequency(step_auto_deactivate(out[2])));
    out[3] = step_envelope(step_sampling_frequency(step_auto_deactivate(out[3])));
    out[4] = step_envelope(step_sampling_frequency(step_auto_deactivate(out[4])));
    out[5] = step_envelope(step_sampling_frequency(step_auto_deactivate(out[5])));
    out
}

// Step 4, at channel 5.
#[tactic(auto, unfolding(crate::specs::Core::sweep_fifth))]
fn step_sweep_modulate(voices: [Voice; 6], modulation: &[i8; 32]) -> [Voice; 6]
    ensures { result ≡ sweep_fifth modulation.now voices }
{
    let mut out = voices;
    out[4] = channel_enum::step_sweep_modulate(out[4], modulation);
    out
}

// Steps 1 to 4 of a cycle. A function of its own: with the two calls in the loop of `vsu::unit::step` a cycle costs a fifth more
// (docs/PERFORMANCE.md).
pub fn cycle(voices: [Voice; 6], modulation: &[i8; 32]) -> [Voice; 6]
    ensures { result ≡ voices_after modulation.now voices }
{
    let stepped = step_voices(voices);
    step_sweep_modulate(stepped, modulation)
}

// n cycles, in a loop of their own: what a frame takes then doesn't weigh on a cycle (docs/PERFORMANCE.md).
pub fn cycles(voices: [Voice; 6], modulation: &[i8; 32], n: u32) -> [Voice; 6]
    ensures { result ≡ voices_after_all modulation.now n voices }
{
    let mut out = voices;
    for _ in 0..n {
        // by way of a local: of `out = cycle(..)`, a result laid in a local that holds an array, no proof is generated
        let next = cycle(out, modulation);
        out = next;
    }
    out
}

fn audible(v: Voice, mutes: u8, channel: u8) -> Voice
    ensures { result ≡ audible mutes channel v }
{
    if bits::flag(mutes, channel) {
        return channel_enum::stop_voice(v);
    }
    v
}

// The voices as a frame takes them: those that are muted as if they were stopped.
pub fn silenced(voices: [Voice; 6], mutes: u8) -> [Voice; 6]
    ensures { result ≡ silenced mutes voices }
{
    let mut out = voices;
    for i in 0..6 {
        out[i] = audible(out[i], mutes, i as u8);
    }
    out
}

// What six voices add to each side.
pub fn mix(voices: [Voice; 6], waves: &[u8; 160]) -> Sums
    ensures { result ≡ sums_of waves.now voices }
{
    let mut left = 0;
    let mut right = 0;
    for &v in &voices {
        left += channel_enum::sample(v, v.channel.left, waves);
        right += channel_enum::sample(v, v.channel.right, waves);
    }
    Sums { left, right }
}

// The range rules of the six.
#[tactic(auto, unfolding(crate::specs::Core::voices_in_range))]
pub fn in_range(voices: [Voice; 6]) -> bool
    ensures { result ≡ voices_in_range voices }
{
    let [a, b, c, d, e, f] = voices;
    channel_enum::wave_in_range(a)
        & channel_enum::wave_in_range(b)
        & channel_enum::wave_in_range(c)
        & channel_enum::wave_in_range(d)
        & channel_enum::swept_in_range(e)
        & channel_enum::noise_in_range(f)
}
