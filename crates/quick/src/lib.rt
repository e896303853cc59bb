// The quick engine: the cycle engine's two runs, state and frames alike, by leaps over the cycles that change nothing but counters.
#![tactic(auto)]

mod voices;

ghost use Rattle.std.specs.Prelude.{◌≡◌, length};
ghost use Rattle.refusal.specs.Refusal.{Tells};
ghost use Rattle.vsu.specs.Core.{unit_answer, advance_of, run_answer, run_of, ran_as};

use refusal::Refusal;
use voices::ByLeaps;
use vsu::unit;
use vsu::unit::Vsu;

// `vsu::unit::advance`.
pub fn advance(u: &mut Vsu, n: u32) -> Result<(), Refusal>
    ensures { (record { state = u.new; answer = result } ≡ advance_of n u.old) × Tells result (unit_answer u.old) }
{
    unit::advance_by::<ByLeaps>(u, n)
}

// `vsu::unit::run`.
pub fn run(u: &mut Vsu, n: u32, out: &mut [i16]) -> Result<u32, Refusal>
    ensures { (ran_as result u.new ≡ (run_of n u.old out.old).ran)
        × (out.new ≡ (run_of n u.old out.old).out)
        × Tells (ran_as result u.new).answer (run_answer n u.old (length out.old)) }
{
    unit::run_by::<ByLeaps>(u, n, out)
}
