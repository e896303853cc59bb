// What a call is given, and the damages to it in the order in which document 01 has them refused.
use crate::call::Call;
use crate::call::Call::{ClearMark, GoTo, Mute, Open, Play, Seek, SetFree, SetMark};
use little::Width;
use refusal::Refusal;

// Everything but the bytes: the record's numbers, the slot named, the mute bits named, the cycle that a play or a seek goes to, and how
// much is lent of the log, of the mark memory and of the frame buffer.
#[derive(Clone, Copy)]
pub(crate) struct Given {
    pub(crate) output: u32,
    pub(crate) mutes: u8,
    pub(crate) cycle: u32,
    pub(crate) applied: u32,
    pub(crate) marks: u16,
    pub(crate) slot: u32,
    pub(crate) bits: u32,
    pub(crate) end: u32,
    pub(crate) log: usize,
    pub(crate) memory: usize,
    pub(crate) sides: usize,
}

#[derive(Clone, Copy)]
pub(crate) enum Damage {
    LogEnds(usize),
    Log(usize, Width, u32),
    Output(u32),
    Mutes(u8),
    Bits(u32),
    // a cycle with the right number of entries applied
    Cycle(u32, u32),
    // one entry fewer applied
    Behind,
    MemoryEnds(usize),
    Slot(u32),
    Marks(u16),
    Memory(usize, Width, u32),
    End(u32),
    Sides(usize),
}

// A damage, the refusal, and the calls that are refused for it.
#[derive(Clone, Copy)]
pub(crate) struct Row {
    pub(crate) name: &'static [u8],
    pub(crate) damage: Damage,
    pub(crate) refusal: Refusal,
    pub(crate) calls: &'static [Call],
}

// The calls that are lent the log, those that are given a record, those that are given both, and those that are lent the mark memory.
const LOG: &[Call] = &[Open, Play, Seek, SetMark, SetFree, GoTo];

const RECORD: &[Call] = &[Play, Seek, SetMark, SetFree, ClearMark, GoTo, Mute];

const PLACE: &[Call] = &[Play, Seek, SetMark, SetFree, GoTo];

const MEMORY: &[Call] = &[SetMark, SetFree, GoTo];

// "log 3 to 8, record 1 then 13, mark memory 2, then 14, 15, 16, then the slot's 10, 11 (offset in its image), 13, then 12, then frame
// room 2"; a mute call's bits after its record. L is 4,800; the mark is slot 3, at 1,284, and its image at 1,292.
pub(crate) const ROWS: [Row; 26] = [
    Row {
        name: b"log short",
        damage: Damage::LogEnds(15),
        refusal: Refusal::LogShort,
        calls: LOG,
    },
    Row {
        name: b"log edition",
        damage: Damage::Log(0, Width::U16, 2),
        refusal: Refusal::LogEdition,
        calls: LOG,
    },
    Row {
        name: b"log header length",
        damage: Damage::Log(2, Width::U16, 17),
        refusal: Refusal::LogHeader,
        calls: LOG,
    },
    Row {
        name: b"log entry offset",
        damage: Damage::Log(8, Width::U32, 24),
        refusal: Refusal::LogHeader,
        calls: LOG,
    },
    Row {
        name: b"log count",
        damage: Damage::Log(4, Width::U32, 1_000_001),
        refusal: Refusal::LogCount,
        calls: LOG,
    },
    Row {
        name: b"log size",
        damage: Damage::LogEnds(63),
        refusal: Refusal::LogSize,
        calls: LOG,
    },
    Row {
        name: b"log entry 2",
        damage: Damage::Log(39, Width::U8, 1),
        refusal: Refusal::LogEntry(2),
        calls: LOG,
    },
    Row {
        name: b"log entry 4",
        damage: Damage::Log(48, Width::U32, 4800),
        refusal: Refusal::LogEntry(4),
        calls: LOG,
    },
    Row {
        name: b"record state",
        damage: Damage::Output(480),
        refusal: Refusal::State,
        calls: RECORD,
    },
    Row {
        name: b"record mutes",
        damage: Damage::Mutes(64),
        refusal: Refusal::State,
        calls: RECORD,
    },
    Row {
        name: b"mute bits",
        damage: Damage::Bits(64),
        refusal: Refusal::State,
        calls: &[Mute],
    },
    Row {
        name: b"record cycle",
        damage: Damage::Cycle(4801, 6),
        refusal: Refusal::Place,
        calls: PLACE,
    },
    Row {
        name: b"record applied",
        damage: Damage::Behind,
        refusal: Refusal::Place,
        calls: PLACE,
    },
    Row {
        name: b"memory short",
        damage: Damage::MemoryEnds(6847),
        refusal: Refusal::Room,
        calls: MEMORY,
    },
    Row {
        name: b"mark number",
        damage: Damage::Slot(16),
        refusal: Refusal::MarkNumber,
        calls: &[SetMark, ClearMark, GoTo],
    },
    Row {
        name: b"mark not set",
        damage: Damage::Marks(0xFFF7),
        refusal: Refusal::MarkUnset,
        calls: &[ClearMark, GoTo],
    },
    Row {
        name: b"all set",
        damage: Damage::Marks(0xFFFF),
        refusal: Refusal::MarksFull,
        calls: &[SetFree],
    },
    Row {
        name: b"slot edition",
        damage: Damage::Memory(1292, Width::U16, 3),
        refusal: Refusal::ImageHeader,
        calls: &[GoTo],
    },
    Row {
        name: b"slot header",
        damage: Damage::Memory(1306, Width::U16, 401),
        refusal: Refusal::ImageHeader,
        calls: &[GoTo],
    },
    Row {
        name: b"slot level",
        damage: Damage::Memory(1505, Width::U8, 16),
        refusal: Refusal::ImageField(213),
        calls: &[GoTo],
    },
    Row {
        name: b"slot output",
        damage: Damage::Memory(1708, Width::U16, 480),
        refusal: Refusal::ImageField(416),
        calls: &[GoTo],
    },
    Row {
        name: b"slot mutes",
        damage: Damage::Memory(1710, Width::U8, 64),
        refusal: Refusal::ImageField(418),
        calls: &[GoTo],
    },
    Row {
        name: b"slot cycle",
        damage: Damage::Memory(1284, Width::U32, 4801),
        refusal: Refusal::Place,
        calls: &[GoTo],
    },
    Row {
        name: b"slot applied",
        damage: Damage::Memory(1288, Width::U32, 5),
        refusal: Refusal::Place,
        calls: &[GoTo],
    },
    Row {
        name: b"beyond",
        damage: Damage::End(4801),
        refusal: Refusal::BeyondEnd,
        calls: &[Play, Seek],
    },
    Row {
        name: b"room",
        damage: Damage::Sides(3),
        refusal: Refusal::Room,
        calls: &[Play],
    },
];

impl Given {
    // The damages to all but bytes.
    pub(crate) fn damage(&mut self, d: Damage) {
        match d {
            Damage::Output(output) => self.output = output,
            Damage::Mutes(mutes) => self.mutes = mutes,
            Damage::Bits(bits) => self.bits = bits,
            Damage::Cycle(cycle, applied) => {
                self.cycle = cycle;
                self.applied = applied;
            }
            Damage::Behind => self.applied = self.applied.wrapping_sub(1),
            Damage::Marks(marks) => self.marks = marks,
            Damage::LogEnds(n) => self.log = self.log.min(n),
            Damage::MemoryEnds(n) => self.memory = n,
            Damage::Slot(n) => self.slot = n,
            Damage::End(cycle) => self.end = cycle,
            Damage::Sides(n) => self.sides = n,
            Damage::Log(..) | Damage::Memory(..) => {}
        }
    }
}

// The damages to bytes.
pub(crate) fn damage_bytes(log: &mut [u8], memory: &mut [u8], d: Damage) {
    match d {
        Damage::Log(at, width, value) => little::put(log, at, width, value),
        Damage::Memory(at, width, value) => little::put(memory, at, width, value),
        _ => {}
    }
}
