// One call, and whether it left everything as before.
use crate::call::Call;
use crate::damage::{Damage, Given, damage_bytes};
use deck::{Counts, Player};
use image::write_image;
use little::Width;
use player::{seek, set_mark};
use refusal::Refusal;
use vsu::unit;

// What came of a call: its answer, the frames, the record, and whether the record and every lent byte are as before and no frame is
// counted.
#[derive(Clone, Copy)]
pub(crate) struct Seen {
    pub(crate) answer: Result<(), Refusal>,
    pub(crate) frames: u32,
    pub(crate) player: Player,
    pub(crate) kept: bool,
}

// Six entries, L 4,800: the four of document 01's own log, a volume due 1,000 and the stop register due 3,000. Of each eight bytes two
// numbers of 32 bits; an entry's second has its byte above its address.
const LOG: [(u32, u32); 8] = [
    (0x0010_0001, 6),
    (16, 4800),
    (0, 0x003F_0000),
    (0, 0x00F0_0404),
    (0, 0x00F0_0410),
    (0, 0x0080_0400),
    (1000, 0x000F_0404),
    (3000, 0x0001_0580),
];

fn own_log() -> [u8; 64] {
    let mut log = [0u8; 64];
    for (i, &(first, second)) in LOG.iter().enumerate() {
        little::put(&mut log, 8 * i, Width::U32, first);
        little::put(&mut log, 8 * i + 4, Width::U32, second);
    }
    log
}

// A record with a power-on unit. A call takes it at any place that the log has.
fn silent(cycle: u32, applied: u32) -> Player {
    Player {
        unit: unit::new(),
        cycle,
        applied,
        marks: 0,
    }
}

// The record that a call is given: the unit at cycle 2,000, and the numbers.
fn record(g: Given) -> Player {
    let mut p = silent(0, 0);
    let _ = seek(&mut p, 2000, &own_log());
    let mut unit = p.unit;
    unit.output = g.output;
    unit.mutes = g.mutes;
    Player {
        unit,
        cycle: g.cycle,
        applied: g.applied,
        marks: g.marks,
    }
}

// A record as bytes: its image, and its numbers behind that. A unit out of range has no image: the damaged ones are so by their output
// counters or their mutes alone, which are laid apart.
fn laid(p: Player) -> [u8; 435] {
    let mut out = [0u8; 435];
    let mut u = p.unit;
    little::put(&mut out, 420, Width::U32, u.output);
    little::put(&mut out, 424, Width::U32, p.cycle);
    little::put(&mut out, 428, Width::U32, p.applied);
    little::put(&mut out, 432, Width::U16, u32::from(p.marks));
    little::put(&mut out, 434, Width::U8, u32::from(u.mutes));
    u.output = 0;
    u.mutes = 0;
    let _ = write_image(u, &mut out);
    out
}

// "A refused call hands back the given record", "a refused opening hands back the power-on record".
fn handed_back(c: Call, given: Player) -> Player {
    match c {
        Call::Open => silent(0, 0),
        _ => given,
    }
}

fn called(c: Call, g: Given, log: &[u8], memory: &mut [u8], out: &mut [i16]) -> Seen {
    let given = record(g);
    let mut player = given;
    let made = c.make(&mut player, g, log, memory, out);
    let (frames, counts) = match made {
        Ok(Some(played)) => (played.frames, played.counts),
        _ => (0, Counts::default()),
    };
    let counted = counts.taken != 0 || counts.held != 0 || counts.none != 0;
    Seen {
        answer: made.map(|_| ()),
        frames,
        player,
        kept: laid(handed_back(c, given)) == laid(player) && frames == 0 && !counted,
    }
}

// The call, lent as much of each as is given. There is always as much.
fn lent(c: Call, g: Given, log: &[u8], memory: &mut [u8], out: &mut [i16]) -> Seen {
    let l = g.log.min(log.len());
    let m = g.memory.min(memory.len());
    let s = g.sides.min(out.len());
    called(c, g, &log[..l], &mut memory[..m], &mut out[..s])
}

// A call with damages. Slot 3 holds a record at L; of the other slots no byte was ever written by a call. The log is lent to be read
// alone. A side that was not written is still 7.
pub(crate) fn tried(c: Call, given: Given, damages: &[Damage]) -> Seen {
    let mut g = given;
    let mut log = own_log();
    let mut memory = [7u8; 6849];
    let mut out = [7i16; 12];
    let _ = set_mark(&mut silent(4800, 6), 3, &log, &mut memory);
    for &d in damages {
        damage_bytes(&mut log, &mut memory, d);
        g.damage(d);
    }
    let before = memory;
    let mut s = lent(c, g, &log, &mut memory, &mut out);
    s.kept = s.kept && memory == before && out.iter().all(|&side| side == 7);
    s
}
