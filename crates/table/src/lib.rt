// "One table of image fields gives each field's offset, width and largest value; tap and output have their own rules besides."
#![tactic(auto)]

ghost use Rattle.std.specs.Prelude.{◌≡◌, ◌<◌, ◌%◌, ◌/◌};
ghost use Rattle.table.specs.Table.{cells_of, own_of, parts_of, part_of, known_edition, broken_by, field_faulty};

use little::Width;
use voice::channel_enum;

// What a field's value keeps to besides its largest.
#[derive(Clone, Copy)]
pub enum Own {
    None,
    // the header's numbers
    Exactly,
    Tap,
    LowestBit,
}

// A field: its offset in the image, its width, its largest value, its own rule.
#[derive(Clone, Copy)]
pub struct Row {
    pub offset: u32,
    pub width: Width,
    pub most: u32,
    pub own: Own,
}

// A field of a part: its offset in the part, its width, its largest value. The tables below have them in columns, which names would
// spread over five lines each.
#[derive(Clone, Copy)]
pub struct Cell(pub u32, pub Width, pub u32);

// What a part is made of: an edition differs from another in its number and in what its last two bytes hold.
#[derive(Clone, Copy)]
pub enum Block {
    Edition1,
    Edition2,
    Header,
    Sample,
    Entry,
    Wave,
    Noise,
    Sweep,
    Zero,
    Mutes,
}

// A part of the image, which comes again until the next one begins: the number of its first field, its offset, its size, and what it is
// made of; in columns, as a Cell.
#[derive(Clone, Copy)]
pub struct Part(pub u16, pub u32, pub u32, pub Block);

// The editions that are known.
#[derive(Clone, Copy)]
pub enum Known {
    First,
    Second,
}

// The one that is written; the numbers below are its own.
pub const NEWEST: Known = Known::Second;

// How many fields it has; no edition has more.
pub const FIELDS: usize = 326;

// Its size in bytes.
pub const SIZE: usize = 420;

// The field of the noise's shift.
pub const SHIFT: usize = 311;

// The first fields of the parts after the header; a channel has 19.
pub const WAVES: usize = 7;

pub const MODULATION: usize = 167;

pub const CHANNELS: usize = 199;

pub const CHANNEL_FIELDS: usize = 19;

pub const NOISE: usize = 294;

pub const SWEEP: usize = 313;

// The output counter.
pub const OUTPUT: usize = 323;

// The mutes; zero in edition 1.
pub const MUTES: usize = 324;

// The parts that are the same in every edition.

const HEADER_PART: Part = Part(1, 2, 14, Block::Header);

const SAMPLES_PART: Part = Part(WAVES as u16, 16, 1, Block::Sample);

const ENTRIES_PART: Part = Part(MODULATION as u16, 176, 1, Block::Entry);

const WAVES_PART: Part = Part(CHANNELS as u16, 208, 32, Block::Wave);

const NOISE_PART: Part = Part(NOISE as u16, 368, 32, Block::Noise);

const SWEEP_PART: Part = Part(SWEEP as u16, 400, 18, Block::Sweep);

const PARTS_1: [Part; 8] = [
    Part(0, 0, 2, Block::Edition1),
    HEADER_PART,
    SAMPLES_PART,
    ENTRIES_PART,
    WAVES_PART,
    NOISE_PART,
    SWEEP_PART,
    Part(MUTES as u16, 418, 2, Block::Zero),
];

const PARTS_2: [Part; 8] = [
    Part(0, 0, 2, Block::Edition2),
    HEADER_PART,
    SAMPLES_PART,
    ENTRIES_PART,
    WAVES_PART,
    NOISE_PART,
    SWEEP_PART,
    Part(MUTES as u16, 418, 2, Block::Mutes),
];

// A table for each block; one of all cells would be no cheaper to prove.

const EDITION_1_CELLS: [Cell; 1] = [Cell(0, Width::U16, 1)];

const EDITION_2_CELLS: [Cell; 1] = [Cell(0, Width::U16, 2)];

// Header length, total, waves, channels, channel offset, sweep offset.
const HEADER_CELLS: [Cell; 6] = [
    Cell(0, Width::U16, 16),
    Cell(2, Width::U32, 420),
    Cell(6, Width::U16, 5),
    Cell(8, Width::U16, 6),
    Cell(10, Width::U16, 208),
    Cell(12, Width::U16, 400),
];

const SAMPLE_CELLS: [Cell; 1] = [Cell(0, Width::U8, 63)];

const ENTRY_CELLS: [Cell; 1] = [Cell(0, Width::U8, 255)];

// Channels 0 to 4: flags, live interval, its counter, left, right, level, envelope interval, reload, envelope step, bank, position,
// zero, frequency, its counter, live tick, tick, envelope tick, shift (zero for waves), zero.
const WAVE_CELLS: [Cell; 19] = [
    Cell(0, Width::U8, 31),
    Cell(1, Width::U8, 31),
    Cell(2, Width::U8, 31),
    Cell(3, Width::U8, 15),
    Cell(4, Width::U8, 15),
    Cell(5, Width::U8, 15),
    Cell(6, Width::U8, 7),
    Cell(7, Width::U8, 15),
    Cell(8, Width::U8, 7),
    Cell(9, Width::U8, 7),
    Cell(10, Width::U8, 31),
    Cell(11, Width::U8, 0),
    Cell(12, Width::U16, 2047),
    Cell(14, Width::U16, 2047),
    Cell(16, Width::U32, 76_804),
    Cell(20, Width::U32, 3),
    Cell(24, Width::U32, 307_218),
    Cell(28, Width::U16, 0),
    Cell(30, Width::U16, 0),
];

// Channel 5: the same, with tap and output for bank and position.
const NOISE_CELLS: [Cell; 19] = [
    Cell(0, Width::U8, 31),
    Cell(1, Width::U8, 31),
    Cell(2, Width::U8, 31),
    Cell(3, Width::U8, 15),
    Cell(4, Width::U8, 15),
    Cell(5, Width::U8, 15),
    Cell(6, Width::U8, 7),
    Cell(7, Width::U8, 15),
    Cell(8, Width::U8, 7),
    Cell(9, Width::U8, 14),
    Cell(10, Width::U8, 1),
    Cell(11, Width::U8, 0),
    Cell(12, Width::U16, 2047),
    Cell(14, Width::U16, 2047),
    Cell(16, Width::U32, 76_804),
    Cell(20, Width::U32, 39),
    Cell(24, Width::U32, 307_218),
    Cell(28, Width::U16, 32_767),
    Cell(30, Width::U16, 0),
];

// Flags, interval, shift, interval counter, step counter, index, zero, last written, current, next; then the output counter.
const SWEEP_CELLS: [Cell; 11] = [
    Cell(0, Width::U8, 31),
    Cell(1, Width::U8, 7),
    Cell(2, Width::U8, 7),
    Cell(3, Width::U8, 6),
    Cell(4, Width::U32, 153_608),
    Cell(8, Width::U8, 31),
    Cell(9, Width::U8, 0),
    Cell(10, Width::U16, 2047),
    Cell(12, Width::U16, 2047),
    Cell(14, Width::U16, 2047),
    Cell(16, Width::U16, 479),
];

const ZERO_CELLS: [Cell; 1] = [Cell(0, Width::U16, 0)];

// Mutes, zero.
const MUTES_CELLS: [Cell; 2] = [Cell(0, Width::U8, 63), Cell(1, Width::U8, 0)];

fn cells_of(block: Block) -> &'static [Cell]
    ensures { result.now ≡ cells_of block }
{
    match block {
        Block::Edition1 => &EDITION_1_CELLS,
        Block::Edition2 => &EDITION_2_CELLS,
        Block::Header => &HEADER_CELLS,
        Block::Sample => &SAMPLE_CELLS,
        Block::Entry => &ENTRY_CELLS,
        Block::Wave => &WAVE_CELLS,
        Block::Noise => &NOISE_CELLS,
        Block::Sweep => &SWEEP_CELLS,
        Block::Zero => &ZERO_CELLS,
        Block::Mutes => &MUTES_CELLS,
    }
}

#[tactic(auto, unfolding(crate::specs::Table::own_of))]
fn own_of(block: Block, i: usize) -> Own
    ensures { result ≡ own_of block i }
{
    match (block, i) {
        (Block::Edition1 | Block::Edition2 | Block::Header, _) => Own::Exactly,
        (Block::Noise, 9) => Own::Tap,
        (Block::Noise, 10) => Own::LowestBit,
        _ => Own::None,
    }
}

fn parts_of(edition: Known) -> [Part; 8]
    ensures { result ≡ parts_of edition }
{
    match edition {
        Known::First => PARTS_1,
        Known::Second => PARTS_2,
    }
}

// The part that a field is in: the last that begins no later.
fn part_of(edition: Known, field: u16) -> Part
    ensures { result ≡ part_of (parts_of edition) field }
{
    let parts = parts_of(edition);
    let mut p = parts[0];
    for next in &parts[1..] {
        let Part(first, ..) = *next;
        if field < first {
            return p;
        }
        p = *next;
    }
    p
}

// Which of a part's cells its field n is, and how many times the part comes before it. Most fields, the samples and the entries, are in
// parts of one cell: divided like the others, they cost `exchange` a sixth more on a pair that may not be exchanged.
fn cell_of(n: usize, cells: usize) -> (usize, usize)
    requires { 0 < cells }
    ensures { (result.0 ≡ n % cells) × (result.1 ≡ n / cells) }
{
    if cells == 1 {
        return (0, n);
    }
    (n % cells, n / cells)
}

// A field by its number, counted in rising order of offsets.
pub fn row_at(edition: Known, field: u16) -> Row
    ensures { result ≡ (known_edition edition).rows field }
{
    let Part(first, offset, size, block) = part_of(edition, field);
    let cells = cells_of(block);
    let n = (field - first) as usize;
    let (i, before) = cell_of(n, cells.len());
    let Cell(inside, width, most) = cells[i];
    Row {
        offset: offset + size * before as u32 + inside,
        width,
        most,
        own: own_of(block, i),
    }
}

// How many fields an edition has.
pub fn fields_in(edition: Known) -> usize
    ensures { result ≡ (known_edition edition).fields }
{
    match edition {
        Known::First => 325,
        Known::Second => FIELDS,
    }
}

#[tactic(auto, unfolding(crate::specs::Table::broken_by))]
fn broken(own: Own, most: u32, shift: u32, value: u32) -> bool
    ensures { result ≡ broken_by own most shift value }
{
    match own {
        Own::None => false,
        Own::Exactly => value < most,
        Own::Tap => !channel_enum::is_tap(value),
        Own::LowestBit => value != shift % 2,
    }
}

// Whether a field's value is at fault; `shift` is the value of the noise's shift.
#[tactic(auto, unfolding(crate::specs::Table::field_faulty))]
pub fn at_fault(r: Row, shift: u32, value: u32) -> bool
    ensures { result ≡ field_faulty shift r value }
{
    r.most < value || broken(r.own, r.most, shift, value)
}
