// A state as the values of its fields, and back.
#![tactic(auto)]

ghost use Rattle.std.specs.Prelude.{◌≡◌, ◌+◌, ◌≤◌, map, length, take, drop, slice_index};
ghost use Rattle.std.proofs.lemmas.List.Edits.{sets};
ghost use Rattle.table.specs.Table.{channel_from, modulation_from, newest, sweep_from, waves_from};
ghost use Rattle.fields.specs.Fields.{flags_of, byte_of, ninth_of, tenth_of, shift_of, voice_fields, blocks_of, tail_fields, header_fields, fields_of, live_by, pitch_by, envelope_by, channel_by, sweep_by, wave_by, swept_by, noise_by, from, voices_by, state_of, byte, half, entry_by};

use common::bits;
use common::channel::{Channel, Envelope, Live, Pitch};
use sweep::sweep_modulate::SweepModulate;
use table::{CHANNEL_FIELDS, CHANNELS, FIELDS, MODULATION, MUTES, NEWEST, OUTPUT, SWEEP, WAVES};
use voice::channel_enum::{Kind, Voice};
use vsu::unit::Vsu;

fn flags(a: bool, b: bool, c: bool, d: bool, e: bool) -> u32
    ensures { result ≡ flags_of a b c d e }
{
    u32::from(
        u8::from(a)
            | (u8::from(b) << 1)
            | (u8::from(c) << 2)
            | (u8::from(d) << 3)
            | (u8::from(e) << 4),
    )
}

// A modulation entry's byte.
fn byte_of(entry: i8) -> u32
    ensures { result ≡ byte_of entry }
{
    u32::from(bits::addend(entry) % 256)
}

#[tactic(auto, unfolding(crate::specs::Fields::ninth_of))]
fn ninth(k: Kind) -> u8
    ensures { result ≡ ninth_of k }
{
    match k {
        Kind::Wave { bank, .. } | Kind::Swept { bank, .. } => bank,
        Kind::Noise { tap, .. } => tap,
    }
}

#[tactic(auto, unfolding(crate::specs::Fields::tenth_of))]
fn tenth(k: Kind) -> u8
    ensures { result ≡ tenth_of k }
{
    match k {
        Kind::Wave { position, .. } | Kind::Swept { position, .. } => position,
        Kind::Noise { output, .. } => u8::from(output),
    }
}

#[tactic(auto, unfolding(crate::specs::Fields::shift_of))]
fn shift_of(k: Kind) -> u16
    ensures { result ≡ shift_of k }
{
    match k {
        Kind::Noise { shift, .. } => shift,
        _ => 0,
    }
}

#[tactic(auto, unfolding(crate::specs::Fields::voice_fields))]
fn voice_fields(v: Voice) -> [u32; 19]
    ensures { result ≡ voice_fields v }
{
    let c = v.channel;
    let k = v.kind;
    let l = c.live;
    let p = c.pitch;
    let e = c.envelope;
    [
        flags(l.auto, l.playing, e.up, e.on, e.looped),
        u32::from(l.interval),
        u32::from(l.counter),
        u32::from(c.left),
        u32::from(c.right),
        u32::from(e.level),
        u32::from(e.interval),
        u32::from(e.reload),
        u32::from(e.step),
        u32::from(ninth(k)),
        u32::from(tenth(k)),
        0,
        u32::from(p.frequency),
        u32::from(p.counter),
        l.tick,
        p.tick,
        e.tick,
        u32::from(shift_of(k)),
        0,
    ]
}

#[tactic(auto, unfolding(crate::specs::Fields::tail_fields))]
fn tail_fields(k: Kind, output: u32, mutes: u32) -> [u32; 13]
    ensures { result ≡ tail_fields k output mutes }
{
    match k {
        Kind::Swept { sweep: s, .. } => [
            flags(s.enable, s.looped, s.modulate, s.slow, s.up),
            u32::from(s.interval),
            u32::from(s.shift),
            u32::from(s.counter),
            s.step,
            u32::from(s.index),
            0,
            u32::from(s.last),
            u32::from(s.current),
            u32::from(s.next),
            output,
            mutes,
            0,
        ],
        _ => [0, 0, 0, 0, 0, 0, 0, 0, 0, 0, output, mutes, 0],
    }
}

fn header_fields() -> [u32; WAVES]
    ensures { result ≡ header_fields newest }
{
    [0, 1, 2, 3, 4, 5, 6].map(|i| table::row_at(NEWEST, i).most)
}

// Not `map`, with which a sample takes seventeen instructions.
fn wave_fields(waves: [u8; 160]) -> [u32; 160]
    ensures { result ≡ waves }
{
    let mut fields = [0; 160];
    for i in 0..160 {
        fields[i] = u32::from(waves[i]);
    }
    fields
}

fn entry_fields(modulation: [i8; 32]) -> [u32; 32]
    ensures { result ≡ map byte_of modulation }
{
    modulation.map(byte_of)
}

fn lay(f: &mut [u32; FIELDS], at: usize, values: &[u32])
    requires { at + length values.now ≤ newest.fields }
    ensures { f.new ≡ sets f.old at values.now }
{
    f[at..at + values.len()].copy_from_slice(values);
}

fn lay_voices(f: &mut [u32; FIELDS], voices: &[Voice; 6])
    ensures { f.new ≡ sets f.old (channel_from 0) (blocks_of voices.now) }
{
    for (i, v) in voices.iter().enumerate() {
        lay(f, CHANNELS + CHANNEL_FIELDS * i, &voice_fields(*v));
    }
}

// The values of a state.
pub fn fields_of(u: Vsu) -> [u32; FIELDS]
    ensures { result ≡ fields_of newest u }
{
    let mut f = [0; FIELDS];
    lay(&mut f, 0, &header_fields());
    lay(&mut f, WAVES, &wave_fields(u.waves));
    lay(&mut f, MODULATION, &entry_fields(u.modulation));
    lay_voices(&mut f, &u.voices);
    let tail = tail_fields(u.voices[4].kind, u.output, u32::from(u.mutes));
    lay(&mut f, SWEEP, &tail);
    f
}

// The low byte of a value.
fn byte(value: u32) -> u8
    ensures { result ≡ byte value }
{
    (value % 256) as u8
}

fn half(value: u32) -> u16
    ensures { result ≡ half value }
{
    (value % 65_536) as u16
}

#[tactic(auto, unfolding(crate::specs::Fields::live_by))]
fn live_of(v: &[u32; CHANNEL_FIELDS]) -> Live
    ensures { result ≡ live_by (slice_index v.now) }
{
    let flags = byte(v[0]);
    Live {
        tick: v[14],
        interval: byte(v[1]),
        counter: byte(v[2]),
        auto: bits::flag(flags, 0),
        playing: bits::flag(flags, 1),
    }
}

#[tactic(auto, unfolding(crate::specs::Fields::pitch_by))]
fn pitch_of(v: &[u32; CHANNEL_FIELDS]) -> Pitch
    ensures { result ≡ pitch_by (slice_index v.now) }
{
    Pitch {
        tick: v[15],
        frequency: half(v[12]),
        counter: half(v[13]),
    }
}

#[tactic(auto, unfolding(crate::specs::Fields::envelope_by))]
fn envelope_of(v: &[u32; CHANNEL_FIELDS]) -> Envelope
    ensures { result ≡ envelope_by (slice_index v.now) }
{
    let flags = byte(v[0]);
    Envelope {
        tick: v[16],
        interval: byte(v[6]),
        step: byte(v[8]),
        level: byte(v[5]),
        reload: byte(v[7]),
        up: bits::flag(flags, 2),
        on: bits::flag(flags, 3),
        looped: bits::flag(flags, 4),
    }
}

#[tactic(auto, unfolding(crate::specs::Fields::channel_by))]
fn channel_of(v: &[u32; CHANNEL_FIELDS]) -> Channel
    ensures { result ≡ channel_by (slice_index v.now) }
{
    Channel {
        live: live_of(v),
        pitch: pitch_of(v),
        envelope: envelope_of(v),
        left: byte(v[3]),
        right: byte(v[4]),
    }
}

#[tactic(auto, unfolding(crate::specs::Fields::wave_by))]
fn wave_of(v: &[u32; CHANNEL_FIELDS]) -> Voice
    ensures { result ≡ wave_by (slice_index v.now) }
{
    Voice {
        channel: channel_of(v),
        kind: Kind::Wave {
            bank: byte(v[9]),
            position: byte(v[10]),
        },
    }
}

#[tactic(auto, unfolding(crate::specs::Fields::noise_by))]
fn noise_of(v: &[u32; CHANNEL_FIELDS]) -> Voice
    ensures { result ≡ noise_by (slice_index v.now) }
{
    Voice {
        channel: channel_of(v),
        kind: Kind::Noise {
            shift: half(v[17]),
            tap: byte(v[9]),
            output: byte(v[10]) == 1,
        },
    }
}

#[tactic(auto, unfolding(crate::specs::Fields::sweep_by))]
fn sweep_of(f: &[u32; FIELDS]) -> SweepModulate
    ensures { result ≡ sweep_by (from f.now sweep_from) }
{
    let flags = byte(f[SWEEP]);
    SweepModulate {
        step: f[SWEEP + 4],
        last: half(f[SWEEP + 7]),
        current: half(f[SWEEP + 8]),
        next: half(f[SWEEP + 9]),
        interval: byte(f[SWEEP + 1]),
        shift: byte(f[SWEEP + 2]),
        counter: byte(f[SWEEP + 3]),
        index: byte(f[SWEEP + 5]),
        enable: bits::flag(flags, 0),
        looped: bits::flag(flags, 1),
        modulate: bits::flag(flags, 2),
        slow: bits::flag(flags, 3),
        up: bits::flag(flags, 4),
    }
}

#[tactic(auto, unfolding(crate::specs::Fields::swept_by))]
fn swept_of(v: &[u32; CHANNEL_FIELDS], f: &[u32; FIELDS]) -> Voice
    ensures { result ≡ swept_by (slice_index v.now) (from f.now sweep_from) }
{
    Voice {
        channel: channel_of(v),
        kind: Kind::Swept {
            bank: byte(v[9]),
            position: byte(v[10]),
            sweep: sweep_of(f),
        },
    }
}

fn voices_of(f: &[u32; FIELDS]) -> [Voice; 6]
    ensures { result ≡ voices_by f.now }
{
    let (blocks, _) = f[CHANNELS..SWEEP].as_chunks();
    [
        wave_of(&blocks[0]),
        wave_of(&blocks[1]),
        wave_of(&blocks[2]),
        wave_of(&blocks[3]),
        swept_of(&blocks[4], f),
        noise_of(&blocks[5]),
    ]
}

// No `array::from_fn`: of the call at an index its `ensures` has any state of the closure, and so not that it still holds f.
fn waves_of(f: &[u32; FIELDS]) -> [u8; 160]
    ensures { result ≡ map byte (take 160 (drop waves_from f.now)) }
{
    let mut waves = [0; 160];
    for i in 0..160 {
        waves[i] = byte(f[WAVES + i]);
    }
    waves
}

fn modulation_of(f: &[u32; FIELDS]) -> [i8; 32]
    ensures { result ≡ map entry_by (take 32 (drop modulation_from f.now)) }
{
    let mut modulation = [0; 32];
    for i in 0..32 {
        modulation[i] = bits::signed(byte(f[MODULATION + i]));
    }
    modulation
}

// The state that values make.
#[tactic(auto, unfolding(crate::specs::Fields::state_of))]
pub fn state_of(f: [u32; FIELDS]) -> Vsu
    ensures { result ≡ state_of f }
{
    Vsu {
        voices: voices_of(&f),
        output: f[OUTPUT],
        waves: waves_of(&f),
        modulation: modulation_of(&f),
        mutes: byte(f[MUTES]),
    }
}
