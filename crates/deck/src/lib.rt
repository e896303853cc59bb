// The player's record, and what its calls hand back. No code: by document 01 what each call makes of them, and the theorem of demand 3.
#![tactic(auto)]

use refusal::Refusal;
use vsu::unit::Vsu;

// "slot k at 428 × k is u32 cycle, u32 applied, image; 6,848 bytes in all"
pub const SLOT_SIZE: usize = 428;

pub const APPLIED_PLACE: usize = 4;

pub const IMAGE_PLACE: usize = 8;

pub const MEMORY_SIZE: usize = 6848;

#[derive(Clone, Copy)]
pub struct Player {
    pub unit: Vsu,
    pub cycle: u32,
    pub applied: u32,
    pub marks: u16,
}

// The record that an opening makes, and how it ended: no Result, since "a refused opening hands back the power-on record".
#[derive(Clone, Copy)]
pub struct Opened {
    pub player: Player,
    pub answer: Result<(), Refusal>,
}

// How many entries were taken, were held off by playing, had no register.
#[derive(Clone, Copy, Default)]
pub struct Counts {
    pub taken: u32,
    pub held: u32,
    pub none: u32,
}

// What a play has made: the number of its frames, and what the entries of its span said.
#[derive(Clone, Copy, Default)]
pub struct Played {
    pub frames: u32,
    pub counts: Counts,
}
