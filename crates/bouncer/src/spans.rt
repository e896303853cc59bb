// A log of any length, span after span: each is bounced and listed before the next, so that its buffers are small.
use crate::output;
use crate::output::{Lines, Sides};
use deck::Player;
use report::out;
use report::out::Unwritten;
use report::streams::STDOUT_FILENO;
use report::terminal::Terminals;
use report::work::Work;

// The most frames of a span, and its cycles.
const FRAMES: u32 = 256;

const SPAN: u32 = 480 * FRAMES;

// A line for each frame of a span, of a player that stood at `from`. No span has more than FRAMES; the test says so to the
// checker.
fn lines(text: &mut Lines, from: u32, made: u32, all: &Sides) {
    for i in 0..made.min(FRAMES) {
        output::line(text, from / 480 + i + 1, 2 * (i as usize), all);
    }
}

// n of a log's cycles, at most a span, up to a cycle that is not beyond its end: so neither call is refused. A bounce leaves the
// player, and the seek moves it on.
fn span(p: &mut Player, n: u32, to: u32, log: &[u8], work: &mut Work) -> Result<(), Unwritten> {
    // seven of their own, as `stems::bounce` asks
    let mut one = [0i16; 512];
    let mut two = [0i16; 512];
    let mut three = [0i16; 512];
    let mut four = [0i16; 512];
    let mut five = [0i16; 512];
    let mut six = [0i16; 512];
    let mut mix = [0i16; 512];
    let mut text = Lines::new();
    let made = stems::bounce(
        p, n, log, &mut one, &mut two, &mut three, &mut four, &mut five, &mut six, &mut mix,
    )
    .unwrap_or(0);
    let all = [mix, one, two, three, four, five, six];
    lines(&mut text, p.cycle, made, &all);
    let _ = player::seek(p, to, log);
    let written = out::put(STDOUT_FILENO, text.as_slice());
    work.tell(to);
    written
}

pub(crate) fn list(log: &[u8], cycles: u32, terminals: Terminals) -> Result<(), Unwritten> {
    let mut p = player::open(log).player;
    let mut work = Work::beside_lines(cycles, SPAN, terminals);
    let mut at: u32 = 0;
    while cycles - at > SPAN {
        at += SPAN;
        span(&mut p, SPAN, at, log, &mut work)?;
    }
    span(&mut p, cycles - at, cycles, log, &mut work)
}
