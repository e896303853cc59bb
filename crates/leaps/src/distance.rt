// Distances: how many cycles come before a change.
ghost use Rattle.std.specs.Prelude.{◌≡◌};
ghost use Rattle.leaps.specs.Distance.{least, never};

// Of what no cycle changes: no call runs further.
pub const NEVER: u32 = 4_294_967_295;

pub fn least(a: u32, b: u32) -> u32
    ensures { result ≡ least a b }
{
    a.min(b)
}
