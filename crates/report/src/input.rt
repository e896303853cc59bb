// Standard input, read whole or by so many bytes.
ghost use Rattle.std.specs.Prelude.{◌≡◌, ◌<◌, length, IfOk, IfSome, IsSome};

use crate::streams::STDIN_FILENO;
use refusal::Refusal;

// The bytes that came. The space has one byte more than there may be, so that a longer input shows.
pub fn whole(space: &mut [u8]) -> Result<&[u8], Refusal>
    ensures { IfOk result (λ t. length t.now < length space.old) }
{
    let size = io::read_full(STDIN_FILENO, space);
    if size < space.len() {
        Ok(&space[..size])
    } else {
        Err(Refusal::Room)
    }
}

// The next bytes, as many as there is room for; none where the input ends before.
pub fn fill(space: &mut [u8]) -> Option<&[u8]>
    ensures length { IfSome result (λ t. length t.now ≡ length space.old) }
    ensures empty { length space.old ≡ 0 → IsSome result }
{
    let size = io::read_full(STDIN_FILENO, space);
    if size == space.len() {
        Some(&space[..size])
    } else {
        None
    }
}

// The next N bytes, likewise.
pub fn exactly<const N: usize>() -> Option<[u8; N]>
    ensures { N ≡ 0 → IsSome result }
{
    let mut b = [0; N];
    fill(&mut b)?;
    Some(b)
}
