// A unit run on through a log: the entries in the span and the cycles in the span, and no more.
ghost use Rattle.std.specs.Prelude.{◌≡◌, ◌-◌, ◌*◌, ◌<◌, ◌≤◌, ◌++◌, length, drop};
ghost use Rattle.register_log.specs.Log.{edition1, writes_from, due_before};
ghost use Rattle.vsu.specs.Core.{advance_of, frames_due, run_of, sides, write_of};
ghost use Rattle.deck.specs.Unbroken.{counts_of, frames_on, in_all, moments_on, no_counts, run_on};
ghost use Rattle.deck.specs.Player.{moved_on};
ghost use Rattle.player.specs.Walk.{counted_by, next_of, Walkable};

use deck::{Counts, Player};
use vsu::unit;
use vsu::unit::{Said, Vsu};

// The due cycle of the next entry, or the target where that is earlier or the log has ended.
fn next_due(log: &[u8], count: u32, applied: u32, target: u32) -> u32
    ensures { result ≡ next_of log.now count applied target }
{
    if applied < count {
        return register_log::due_at(log, applied).min(target);
    }
    target
}

// The unit's write and the quick engine's runs, on states in range: none is refused.

// Lent the unit: by value, where a program has both walks, `drive` takes a quarter more for its writes.
fn written(u: &mut Vsu, address: u16, byte: u8)
    ensures { u.new ≡ (write_of address byte u.old).state }
{
    let _ = unit::write(u, u32::from(address), byte);
}

fn advanced(mut u: Vsu, n: u32) -> Vsu
    ensures { result ≡ (advance_of n u).state }
{
    let _ = quick::advance(&mut u, n);
    u
}

fn ran(mut u: Vsu, n: u32, out: &mut [i16]) -> Vsu
    ensures { (result ≡ (run_of n u out.old).ran.state) × (out.new ≡ (run_of n u out.old).out) }
{
    let _ = quick::run(&mut u, n, out);
    u
}

// One more of what a write said.
fn count_said(c: &mut Counts, s: Said)
    requires { in_all c.old < 4294967295 }
    ensures { c.new ≡ counted_by c.old s }
{
    match s {
        Said::Taken => c.taken += 1,
        Said::Held => c.held += 1,
        Said::NoRegister => c.none += 1,
    }
}

// Both walks keep the unit, the entries applied and the cycle in locals: in the lent record, or in a copy of it, an entry costs 1.1 times as
// much (`bench/entries`: 397 ns in place of 352, 339 and 300, 335 and 291, 337 and 291).

// On to the target without frames.
pub(crate) fn skip_to(p: &mut Player, target: u32, log: &[u8], count: u32)
    requires { Walkable log.now count p.old target }
    ensures { p.new ≡ moved_on (writes_from edition1 log.now count 0) p.old (target - p.old.cycle) }
{
    let mut unit = p.unit;
    let mut applied = p.applied;
    let mut cycle = p.cycle;
    while cycle < target {
        let due = next_due(log, count, applied, target);
        if due <= cycle {
            let w = register_log::write_at(log, applied);
            written(&mut unit, w.address, w.byte);
            applied += 1;
        } else {
            unit = advanced(unit, due - cycle);
            cycle = due;
        }
    }
    p.unit = unit;
    p.applied = applied;
    p.cycle = cycle;
}

// On to the target, with the frames at the front of `out`; and how many of the entries on the way said what. It stays beside `skip_to`: one
// function for both takes what a write and a run do besides as a trait with its laws, and that and its two impls are longer than this loop.
pub(crate) fn run_to(p: &mut Player, target: u32, log: &[u8], count: u32, out: &mut [i16]) -> Counts
    requires { (Walkable log.now count p.old target) × (frames_due p.old.unit (target - p.old.cycle) * 2 ≤ length out.old) }
    ensures player_value { p.new ≡ moved_on (writes_from edition1 log.now count 0) p.old (target - p.old.cycle) }
    ensures counts_value { result ≡ counts_of (moments_on (writes_from edition1 log.now count 0) p.old.cycle p.old.unit (target - p.old.cycle)) }
    ensures out_after { out.new ≡ sides (frames_on (writes_from edition1 log.now count 0) p.old.cycle p.old.unit (target - p.old.cycle)) ++ drop (frames_due p.old.unit (target - p.old.cycle) * 2) out.old }
{
    let mut unit = p.unit;
    let mut applied = p.applied;
    let mut cycle = p.cycle;
    let mut at = 0;
    let mut counts = Counts::default();
    while cycle < target {
        let due = next_due(log, count, applied, target);
        if due <= cycle {
            let w = register_log::write_at(log, applied);
            count_said(&mut counts, unit::says(unit, w.address as u32));
            written(&mut unit, w.address, w.byte);
            applied += 1;
        } else {
            let made = unit::frames_due(unit, due - cycle);
            unit = ran(unit, due - cycle, &mut out[at..]);
            at += 2 * (made as usize);
            cycle = due;
        }
    }
    p.unit = unit;
    p.applied = applied;
    p.cycle = cycle;
    counts
}
