// The unit: the Rust's `VSU`.
ghost use Rattle.std.specs.Prelude.{◌≡◌, ◌+◌, ◌*◌, ◌%◌, ◌≤◌, true, ◌++◌, length, drop, if◌then◌else◌};
ghost use Rattle.refusal.specs.Refusal.{Tells};
ghost use Rattle.six.specs.Core.{silenced, sums_of, voices_after_all, voices_in_range};
ghost use Rattle.vsu.specs.Core.{power_on, decode_of, write_to, write, says, said_answer, frame_of, run, frames, frames_due, sides, all_at_most, in_range, unit_answer, write_of, advance_of, run_answer, run_of, ran_as, SmallSums};

use crate::constants::SOUND_SAMPLE_RATE_CYCLE_COUNT;
use common::bits;
use refusal::Refusal;
use voice::channel_enum;
use voice::channel_enum::Voice;

// Bit k of the mutes is for channel k.
#[derive(Clone, Copy)]
pub struct Vsu {
    pub voices: [Voice; 6],
    pub output: u32,
    pub waves: [u8; 160],
    pub modulation: [i8; 32],
    pub mutes: u8,
}

#[derive(Clone, Copy)]
pub struct Frame {
    pub left: i16,
    pub right: i16,
}

// Where a register write goes.
#[derive(Clone, Copy)]
pub enum Register {
    Wave(usize),
    Modulation(usize),
    Channel { index: usize, offset: u32 },
    Stop,
    Nothing,
}

// What a register write says: taken, held off by playing, no such register.
#[derive(Clone, Copy, Debug, PartialEq, Eq)]
pub enum Said {
    Taken,
    Held,
    NoRegister,
}

// Power-on.
pub fn new() -> Vsu
    ensures { result ≡ power_on }
{
    Vsu {
        voices: six::unit::new(),
        output: 0,
        waves: [0; 160],
        modulation: [0; 32],
        mutes: 0,
    }
}

// Public, so that there is one address map.
pub fn decode(address: u32) -> Register
    ensures { result ≡ decode_of address }
{
    match address {
        0x000..=0x27F => Register::Wave((address / 4) as usize),
        0x280..=0x2FF => Register::Modulation(((address - 0x280) / 4) as usize),
        0x400..=0x57F => Register::Channel {
            index: ((address - 0x400) / 0x40) as usize,
            offset: address % 0x20,
        },
        0x580 => Register::Stop,
        _ => Register::Nothing,
    }
}

fn write_wave(u: Vsu, at: usize, value: u8) -> Vsu
    ensures { result ≡ write_to (Register.Wave at) value u }
{
    if six::unit::playback_occuring(u.voices) {
        return u;
    }
    let mut t = u;
    if at < 160 {
        t.waves[at] = bits::field(value, 0, 6);
    }
    t
}

fn write_modulation(u: Vsu, at: usize, value: u8) -> Vsu
    ensures { result ≡ write_to (Register.Modulation at) value u }
{
    let fifth = u.voices[4];
    if fifth.channel.live.playing {
        return u;
    }
    let mut t = u;
    if at < 32 {
        t.modulation[at] = bits::signed(value);
    }
    t
}

fn write_channel(u: Vsu, index: usize, offset: u32, value: u8) -> Vsu
    ensures { result ≡ write_to (Register.Channel index offset) value u }
{
    // In place, `t.voices[index] = ..`, a write takes eleven instructions more.
    let mut voices = u.voices;
    let mut t = u;
    if index < 6 {
        let v = voices[index];
        voices[index] = channel_enum::set_u8(v, offset, value);
        t.voices = voices;
    }
    t
}

fn write_stop(u: Vsu, value: u8) -> Vsu
    ensures { result ≡ write_to Register.Stop value u }
{
    // Not `Vsu { voices, ..u }`: every write then takes fifty instructions more.
    let mut t = u;
    if bits::flag(value, 0) {
        let voices = u.voices;
        let silent = six::unit::stop_all(voices);
        t.voices = silent;
    }
    t
}

fn set_u8(u: Vsu, address: u32, value: u8) -> Vsu
    ensures { result ≡ write address value u }
{
    match decode(address) {
        Register::Wave(at) => write_wave(u, at, value),
        Register::Modulation(at) => write_modulation(u, at, value),
        Register::Channel { index, offset } => write_channel(u, index, offset, value),
        Register::Stop => write_stop(u, value),
        Register::Nothing => u,
    }
}

fn held_while(plays: bool) -> Said
    ensures { result ≡ (if plays then Said.Held else Said.Taken) }
{
    if plays { Said::Held } else { Said::Taken }
}

fn taken_where(has: bool) -> Said
    ensures { result ≡ (if has then Said.Taken else Said.NoRegister) }
{
    if has { Said::Taken } else { Said::NoRegister }
}

// What a write to an address says, of any state. Apart from the write itself: with both in one function, and the state beside the answer, each
// voice of the six is copied part by part, and a write to a channel costs 1.8 times as much (docs/PERFORMANCE.md).
pub fn says(u: Vsu, address: u32) -> Said
    ensures { result ≡ says address u }
{
    // once, and not in each arm, where a write to a channel costs more (docs/PERFORMANCE.md)
    let voices = u.voices;
    match decode(address) {
        Register::Wave(_) => held_while(six::unit::playback_occuring(voices)),
        Register::Modulation(_) => held_while(voices[4].channel.live.playing),
        Register::Channel { index, offset } => {
            if index < 6 {
                return taken_where(channel_enum::has_offset(voices[index].kind, offset));
            }
            Said::NoRegister
        }
        Register::Stop => Said::Taken,
        Register::Nothing => Said::NoRegister,
    }
}

// The frame of six voices, those that are muted as if they were stopped. Its caller has shown that they are in range, so that each side
// fits an i16.
fn sample(voices: [Voice; 6], waves: &[u8; 160], mutes: u8) -> Frame
    requires { SmallSums (sums_of waves.now (silenced mutes voices)) }
    ensures { result ≡ frame_of waves.now (silenced mutes voices) }
{
    let audible = six::unit::silenced(voices, mutes);
    let s = six::unit::mix(audible, waves);
    Frame {
        left: (s.left / 8 * 32) as i16,
        right: (s.right / 8 * 32) as i16,
    }
}

fn samples_in_range(waves: &[u8; 160]) -> bool
    ensures { result ≡ all_at_most 63 waves.now }
{
    // Not `all`: a loop that can end early goes by one byte at a time, one that can't by many (docs/PERFORMANCE.md).
    let mut small = true;
    for sample in waves {
        small &= *sample <= 63;
    }
    small
}

// The range rules.
pub fn in_range(u: Vsu) -> bool
    ensures { result ≡ in_range u }
{
    six::unit::in_range(u.voices) & (u.output <= 479) & samples_in_range(&u.waves) & (u.mutes <= 63)
}

// A register write: what it says of it, or the refusal.
pub fn write(u: &mut Vsu, address: u32, value: u8) -> Result<Said, Refusal>
    ensures { (record { state = u.new; said = result } ≡ write_of address value u.old) × Tells (said_answer result) (unit_answer u.old) }
{
    let old = *u;
    if !in_range(old) {
        return Err(Refusal::State);
    }
    let said = says(old, address);
    *u = set_u8(old, address, value);
    Ok(said)
}

// How many frames n cycles make.
pub fn frames_due(u: Vsu, n: u32) -> u64
    ensures { result ≡ frames_due u n }
{
    (u64::from(u.output) + u64::from(n)) / u64::from(SOUND_SAMPLE_RATE_CYCLE_COUNT)
}

// A way to make cycles of the six voices. It takes any six; what it answers is said of voices in range, and its callers check that first.
pub trait Engine {
    fn cycles(voices: [Voice; 6], modulation: &[i8; 32], n: u32) -> [Voice; 6]
        ensures { voices_in_range voices ≡ true → result ≡ voices_after_all modulation.now n voices };
}

// Cycle by cycle, as the Rust.
pub struct ByCycle;

impl Engine for ByCycle {
    fn cycles(voices: [Voice; 6], modulation: &[i8; 32], n: u32) -> [Voice; 6]
        ensures { result ≡ voices_after_all modulation.now n voices }
    {
        six::unit::cycles(voices, modulation, n)
    }
}

// n cycles, whose frames fill the front of `out`. For callers that have made the two checks of `run`.
fn step<E: Engine>(u: Vsu, n: u32, out: &mut [i16]) -> Vsu
    requires { (in_range u ≡ true) × (frames_due u n * 2 ≤ length out.old) }
    ensures { (result ≡ run n u) × (out.new ≡ sides (frames n u) ++ drop (frames_due u n * 2) out.old) }
{
    let mut voices = u.voices;
    let mut output = u.output;
    let mut at = 0;
    let mut i = 0;
    while i < n {
        let part = (n - i).min(SOUND_SAMPLE_RATE_CYCLE_COUNT - output);
        let next = E::cycles(voices, &u.modulation, part);
        voices = next;
        i += part;
        output += part;
        if output == SOUND_SAMPLE_RATE_CYCLE_COUNT {
            output = 0;
            let frame = sample(voices, &u.waves, u.mutes);
            out[at] = frame.left;
            out[at + 1] = frame.right;
            at += 2;
        }
    }
    Vsu {
        voices,
        output,
        ..u
    }
}

// The output counter n cycles on.
fn output_after(output: u32, n: u32) -> u32
    ensures { result ≡ (output + n) % 480 }
{
    ((u64::from(output) + u64::from(n)) % u64::from(SOUND_SAMPLE_RATE_CYCLE_COUNT)) as u32
}

// n cycles without frames, for callers that have checked the range: no frame is a stop.
fn skip<E: Engine>(u: Vsu, n: u32) -> Vsu
    requires { in_range u ≡ true }
    ensures { result ≡ run n u }
{
    Vsu {
        voices: E::cycles(u.voices, &u.modulation, n),
        output: output_after(u.output, n),
        ..u
    }
}

// n cycles without frames, by an engine.
pub fn advance_by<E: Engine>(u: &mut Vsu, n: u32) -> Result<(), Refusal>
    ensures { (record { state = u.new; answer = result } ≡ advance_of n u.old) × Tells result (unit_answer u.old) }
{
    if !in_range(*u) {
        return Err(Refusal::State);
    }
    *u = skip::<E>(*u, n);
    Ok(())
}

// n cycles, whose frames fill the front of `out`, by an engine: how many they are.
pub fn run_by<E: Engine>(u: &mut Vsu, n: u32, out: &mut [i16]) -> Result<u32, Refusal>
    ensures { (ran_as result u.new ≡ (run_of n u.old out.old).ran)
        × (out.new ≡ (run_of n u.old out.old).out)
        × Tells (ran_as result u.new).answer (run_answer n u.old (length out.old)) }
{
    if !in_range(*u) {
        return Err(Refusal::State);
    }
    let due = frames_due(*u, n);
    if due > (out.len() / 2) as u64 {
        return Err(Refusal::Room);
    }
    *u = step::<E>(*u, n, out);
    Ok(due as u32)
}

// n cycles without frames.
pub fn advance(u: &mut Vsu, n: u32) -> Result<(), Refusal>
    ensures { (record { state = u.new; answer = result } ≡ advance_of n u.old) × Tells result (unit_answer u.old) }
{
    advance_by::<ByCycle>(u, n)
}

// n cycles, whose frames fill the front of `out`: how many they are.
pub fn run(u: &mut Vsu, n: u32, out: &mut [i16]) -> Result<u32, Refusal>
    ensures { (ran_as result u.new ≡ (run_of n u.old out.old).ran)
        × (out.new ≡ (run_of n u.old out.old).out)
        × Tells (ran_as result u.new).answer (run_answer n u.old (length out.old)) }
{
    run_by::<ByCycle>(u, n, out)
}
