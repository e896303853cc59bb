// The stem bouncer: one span of a log, each of its six voices alone and all of them together. It stands above the player and knows only
// its contracts.
#![tactic(auto)]

ghost use Rattle.std.specs.Prelude.{◌≡◌, ◌≤◌, length};
ghost use Rattle.deck.specs.Player.{ended, play_answer};
ghost use Rattle.refusal.specs.Refusal.{Tells};
ghost use Rattle.stems.specs.Stems.{bounce_answer, bounce_of, frames_by, rendered_by, shortest_of, lent};
ghost use Rattle.vsu.specs.Core.{frames_due};

use deck::Player;
use refusal::Refusal;

// The room of the shortest of the seven.
fn shortest(
    one: usize,
    two: usize,
    three: usize,
    four: usize,
    five: usize,
    six: usize,
    mix: usize,
) -> usize
    ensures { result ≡ shortest_of one two three four five six mix }
{
    mix.min(one.min(two.min(three.min(four.min(five.min(six))))))
}

// The span with these mutes, in a buffer of which no more than `room` is used: so all seven are refused alike. Where the record is out of
// range the mute leaves it, and the play refuses it.
fn render(
    p: &Player,
    mutes: u32,
    n: u32,
    log: &[u8],
    room: usize,
    out: &mut [i16],
) -> Result<u32, Refusal>
    requires { (mutes ≤ 63) × (room ≤ length out.old) }
    ensures { (result ≡ frames_by (play_answer p.now n log.now room) (frames_due p.now.unit n))
        × (out.new ≡ rendered_by (play_answer p.now n log.now room) p.now n log.now mutes out.old) }
{
    let mut q = *p;
    let _ = player::mute(&mut q, mutes);
    let played = player::play(&mut q, n, log, &mut out[..room])?;
    Ok(played.frames)
}

// Channels 0 to 5 alone in `one` to `six`, all of them in `mix`: the number of frames, or 3 to 8, 1, 13, 12, 2. Seven buffers: no array of
// `&mut` can be made yet, and of a struct of them that is lent a contract has to say besides that each is still the caller's own.
pub fn bounce(
    p: &Player,
    n: u32,
    log: &[u8],
    one: &mut [i16],
    two: &mut [i16],
    three: &mut [i16],
    four: &mut [i16],
    five: &mut [i16],
    six: &mut [i16],
    mix: &mut [i16],
) -> Result<u32, Refusal>
    ensures { (result ≡ frames_by (bounce_of p.now n log.now (lent one.old two.old three.old four.old five.old six.old mix.old)).bounced.answer (bounce_of p.now n log.now (lent one.old two.old three.old four.old five.old six.old mix.old)).bounced.frames)
        × (p.now ≡ (bounce_of p.now n log.now (lent one.old two.old three.old four.old five.old six.old mix.old)).bounced.player)
        × (lent one.new two.new three.new four.new five.new six.new mix.new ≡ (bounce_of p.now n log.now (lent one.old two.old three.old four.old five.old six.old mix.old)).out)
        × Tells (ended result) (bounce_answer p.now n log.now (lent one.old two.old three.old four.old five.old six.old mix.old)) }
{
    let room = shortest(
        one.len(),
        two.len(),
        three.len(),
        four.len(),
        five.len(),
        six.len(),
        mix.len(),
    );
    let frames = render(p, 0, n, log, room, mix)?;
    render(p, 62, n, log, room, one)?;
    render(p, 61, n, log, room, two)?;
    render(p, 59, n, log, room, three)?;
    render(p, 55, n, log, room, four)?;
    render(p, 47, n, log, room, five)?;
    render(p, 31, n, log, room, six)?;
    Ok(frames)
}
