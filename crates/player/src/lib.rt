// The player: one log, played, sought and marked, with voices muted. Each call checks what it is lent, in document 01's order; a refused
// one leaves all of it as it was.
#![tactic(auto)]

mod walk;

ghost use Rattle.std.specs.Prelude.{◌≡◌, ◌≤◌, true, length};
ghost use Rattle.std.proofs.lemmas.List.Edits.{sets};
ghost use Rattle.deck.specs.Player.{ended, made_of, open_of, standing_of, play_answer, play_of, restarted, seek_answer, seek_of, memory_size, slot_place, slot_of, set_answer, set_of, clear_answer, clear_of, go_to_answer, go_to_of, mute_answer, mute_of};
ghost use Rattle.register_log.specs.Log.{edition1, log_answer};
ghost use Rattle.marks.specs.Marks.{marks_set, lowest_free};
ghost use Rattle.refusal.specs.Refusal.{Tells};
ghost use Rattle.vsu.specs.Core.{in_range};
ghost use Rattle.player.specs.Walk.{has_place};

use deck::{APPLIED_PLACE, IMAGE_PLACE, MEMORY_SIZE, Opened, Played, Player, SLOT_SIZE};
use refusal::Refusal;
use register_log::Log;
use vsu::unit;

// How many marks are set.
pub fn marks_set(p: &Player) -> u32
    ensures { result ≡ marks_set p.now.marks }
{
    marks::marks_set(p.marks)
}

// The lowest free slot, 16 if none is.
pub fn lowest_free(p: &Player) -> u32
    ensures { result ≡ lowest_free p.now.marks }
{
    marks::lowest_free(p.marks)
}

// Power-on, cycle 0, no marks; or 3 to 8.
pub fn open(log: &[u8]) -> Opened
    ensures { (result.answer ≡ (open_of log.now).answer)
        × (result.player ≡ (open_of log.now).player)
        × Tells result.answer (log_answer edition1 log.now) }
{
    let player = Player {
        unit: unit::new(),
        cycle: 0,
        applied: 0,
        marks: 0,
    };
    let answer = register_log::check_log(log).map(|_| ());
    Opened { player, answer }
}

// Whether a log that was checked has a record's place.
fn has_place(log: &[u8], l: Log, cycle: u32, applied: u32) -> bool
    ensures { result ≡ has_place log.now l cycle applied }
{
    (cycle <= l.cycles) & register_log::stands_at(log, l.count, cycle, applied)
}

// Log 3 to 8, record 1 then 13; or the number of entries and L.
fn standing(p: &Player, log: &[u8]) -> Result<Log, Refusal>
    ensures { result ≡ standing_of p.now log.now }
{
    let l = register_log::check_log(log)?;
    if !unit::in_range(p.unit) {
        return Err(Refusal::State); // 1 before 13
    }
    if !has_place(log, l, p.cycle, p.applied) {
        return Err(Refusal::Place);
    }
    Ok(l)
}

// n cycles on, their frames at the front of `out`: 3 to 8, 1, 13, 12, 2.
pub fn play(p: &mut Player, n: u32, log: &[u8], out: &mut [i16]) -> Result<Played, Refusal>
    ensures { (result ≡ made_of (play_of p.old n log.now out.old).played)
        × (p.new ≡ (play_of p.old n log.now out.old).played.player)
        × (out.new ≡ (play_of p.old n log.now out.old).out)
        × Tells (ended result) (play_answer p.old n log.now (length out.old)) }
{
    let l = standing(p, log)?;
    let target = (p.cycle as u64) + (n as u64);
    if target > l.cycles as u64 {
        return Err(Refusal::BeyondEnd); // 12 before 2
    }
    let frames = unit::frames_due(p.unit, n);
    if frames > (out.len() / 2) as u64 {
        return Err(Refusal::Room);
    }
    let counts = walk::run_to(p, target as u32, log, l.count, out);
    Ok(Played {
        frames: frames as u32,
        counts,
    })
}

// Back to power-on, with the present mutes and the marks.
fn restart(p: &mut Player)
    ensures { p.new ≡ restarted p.old }
{
    let mutes = p.unit.mutes;
    p.unit = unit::new();
    p.unit.mutes = mutes;
    p.cycle = 0;
    p.applied = 0;
}

// To a cycle, without frames, from the present one, or from power-on when the target is earlier: 3 to 8, 1, 13, 12.
pub fn seek(p: &mut Player, target: u32, log: &[u8]) -> Result<(), Refusal>
    ensures { (result ≡ (seek_of p.old target log.now).answer)
        × (p.new ≡ (seek_of p.old target log.now).player)
        × Tells result (seek_answer p.old target log.now) }
{
    let l = standing(p, log)?;
    if target > l.cycles {
        return Err(Refusal::BeyondEnd);
    }
    if target < p.cycle {
        restart(p);
    }
    walk::skip_to(p, target, log, l.count);
    Ok(())
}

fn slot_place(slot: u32) -> usize
    requires { slot ≤ 15 }
    ensures { result ≡ slot_place slot }
{
    SLOT_SIZE * (slot as usize)
}

// The record's cycle, entries applied and image in a slot.
fn keep(p: &Player, slot: u32, memory: &mut [u8])
    requires { (slot ≤ 15) × ((memory_size ≤ length memory.old) × (in_range p.now.unit ≡ true)) }
    ensures { memory.new ≡ sets memory.old (slot_place slot) (slot_of p.now) }
{
    let at = slot_place(slot);
    little::put(memory, at, little::Width::U32, p.cycle);
    little::put(memory, at + APPLIED_PLACE, little::Width::U32, p.applied);
    let from = at + IMAGE_PLACE;
    let _ = image::write_image(p.unit, &mut memory[from..]);
}

// A mark in a slot: 3 to 8, 1, 13, 2, then `above` where there is no such slot.
fn set_at(
    p: &mut Player,
    slot: u32,
    above: Refusal,
    log: &[u8],
    memory: &mut [u8],
) -> Result<(), Refusal>
    ensures { (result ≡ (set_of above p.old slot log.now memory.old).turn.answer)
        × (p.new ≡ (set_of above p.old slot log.now memory.old).turn.player)
        × (memory.new ≡ (set_of above p.old slot log.now memory.old).memory)
        × Tells result (set_answer above p.old slot log.now (length memory.old)) }
{
    standing(p, log)?;
    if memory.len() < MEMORY_SIZE {
        return Err(Refusal::Room); // 2 before 14 and 16
    }
    if slot > 15 {
        return Err(above);
    }
    keep(p, slot, memory);
    p.marks = marks::with_mark(p.marks, slot);
    Ok(())
}

// A mark in the slot named: 3 to 8, 1, 13, 2, 14.
pub fn set_mark(p: &mut Player, slot: u32, log: &[u8], memory: &mut [u8]) -> Result<(), Refusal>
    ensures { (result ≡ (set_of Refusal.MarkNumber p.old slot log.now memory.old).turn.answer)
        × (p.new ≡ (set_of Refusal.MarkNumber p.old slot log.now memory.old).turn.player)
        × (memory.new ≡ (set_of Refusal.MarkNumber p.old slot log.now memory.old).memory)
        × Tells result (set_answer Refusal.MarkNumber p.old slot log.now (length memory.old)) }
{
    set_at(p, slot, Refusal::MarkNumber, log, memory)
}

// A mark in the lowest free slot: 3 to 8, 1, 13, 2, 16.
pub fn set_free(p: &mut Player, log: &[u8], memory: &mut [u8]) -> Result<(), Refusal>
    ensures { (result ≡ (set_of Refusal.MarksFull p.old (lowest_free p.old.marks) log.now memory.old).turn.answer)
        × (p.new ≡ (set_of Refusal.MarksFull p.old (lowest_free p.old.marks) log.now memory.old).turn.player)
        × (memory.new ≡ (set_of Refusal.MarksFull p.old (lowest_free p.old.marks) log.now memory.old).memory)
        × Tells result (set_answer Refusal.MarksFull p.old (lowest_free p.old.marks) log.now (length memory.old)) }
{
    let slot = lowest_free(p);
    set_at(p, slot, Refusal::MarksFull, log, memory)
}

// A mark cleared: 1, 14, 15.
pub fn clear_mark(p: &mut Player, slot: u32) -> Result<(), Refusal>
    ensures { (result ≡ (clear_of p.old slot).answer)
        × (p.new ≡ (clear_of p.old slot).player)
        × Tells result (clear_answer p.old slot) }
{
    if !unit::in_range(p.unit) {
        return Err(Refusal::State); // 1 before 14
    }
    if slot > 15 {
        return Err(Refusal::MarkNumber);
    }
    if !marks::is_set(p.marks, slot) {
        return Err(Refusal::MarkUnset);
    }
    p.marks = marks::without_mark(p.marks, slot);
    Ok(())
}

// To a mark: 3 to 8, 1, 13, 2, 14, 15, then the slot's 10, 11, 13. The mutes stay.
pub fn go_to(p: &mut Player, slot: u32, log: &[u8], memory: &[u8]) -> Result<(), Refusal>
    ensures { (result ≡ (go_to_of p.old slot log.now memory.now).answer)
        × (p.new ≡ (go_to_of p.old slot log.now memory.now).player)
        × Tells result (go_to_answer p.old slot log.now memory.now) }
{
    let l = standing(p, log)?;
    if memory.len() < MEMORY_SIZE {
        return Err(Refusal::Room);
    }
    if slot > 15 {
        return Err(Refusal::MarkNumber); // 14 before 15
    }
    if !marks::is_set(p.marks, slot) {
        return Err(Refusal::MarkUnset);
    }
    let at = slot_place(slot);
    let image = image::read_image(&memory[at + IMAGE_PLACE..at + SLOT_SIZE]);
    image.answer?;
    let cycle = little::u32_at(memory, at);
    let applied = little::u32_at(memory, at + APPLIED_PLACE);
    if !has_place(log, l, cycle, applied) {
        return Err(Refusal::Place);
    }
    let mutes = p.unit.mutes;
    p.unit = image.state;
    p.unit.mutes = mutes;
    p.cycle = cycle;
    p.applied = applied;
    Ok(())
}

// The mutes, bit k for channel k: 1, of the record and of the bits.
pub fn mute(p: &mut Player, bits: u32) -> Result<(), Refusal>
    ensures { (result ≡ (mute_of p.old bits).answer)
        × (p.new ≡ (mute_of p.old bits).player)
        × Tells result (mute_answer p.old bits) }
{
    if !unit::in_range(p.unit) | (bits > 63) {
        return Err(Refusal::State);
    }
    p.unit.mutes = bits as u8;
    Ok(())
}
