// Lists the log on standard input as document 01's "The listing" says: its first line, then a line for each frame. The first line tells of
// the whole log, so the log is played twice.
#![tactic(auto)]

mod sorts;

ghost use Rattle.std.specs.Prelude.{◌≡◌};
ghost use Rattle.register_log.specs.Log.{entries_in};

use crate::sorts::Sorts;
use deck::Player;
use refusal::Refusal;
use register_log::{Log, reader};
use report::out::Unwritten;
use report::streams::STDOUT_FILENO;
use report::terminal::Terminals;
use report::text::Text;
use report::work::Work;
use report::{input, out, print, sum, terminal};

// A log of any length is listed in plays of at most this many frames, and their cycles.
const FRAMES: u32 = 1024;

const SPAN: u32 = 480 * FRAMES;

// Room for a line of each frame of a play: a line has at most 31 bytes.
type Lines = Text<32768>;

// Number, cycle, left, right. Power-on has output counter 0, so frame n is made at cycle 480 × n.
fn line(text: &mut Lines, n: u64, cycle: u64, left: i16, right: i16) {
    text.number(n);
    text.labelled(b" ", cycle);
    text.labelled(b" ", u64::from(sum::side(left)));
    text.labelled(b" ", u64::from(sum::side(right)));
    text.words(b"\n");
}

// A line for each frame that a play made, behind the `before` frames of the plays before it. No play here makes more than FRAMES;
// the test says so to the checker.
fn lines(text: &mut Lines, before: u32, sides: &[i16; 2048], made: u32) {
    for i in 0..made.min(FRAMES) {
        let n = u64::from(before) + u64::from(i) + 1;
        let k = 2 * (i as usize);
        line(text, n, 480 * n, sides[k], sides[k + 1]);
    }
}

// n of a log's cycles, at most a span and not beyond its end: so the play is never refused. The pass before this one is the first
// half of what is told to be done.
fn play(p: &mut Player, n: u32, log: &[u8], work: &mut Work) -> Result<(), Unwritten> {
    let mut sides = [0i16; 2048];
    let mut text = Lines::new();
    let before = p.cycle / 480;
    let made = player::play(p, n, log, &mut sides).map_or(0, |played| played.frames);
    lines(&mut text, before, &sides, made);
    let written = out::put(STDOUT_FILENO, text.as_slice());
    // read by itself, so that its range is known
    let cycle = p.cycle;
    work.tell(work.all - work.all / 2 + cycle / 2);
    written
}

fn frames(log: &[u8], cycles: u32, work: &mut Work) -> Result<(), Unwritten> {
    let mut p = player::open(log).player;
    for _ in 0..cycles / SPAN {
        play(&mut p, SPAN, log, work)?;
    }
    play(&mut p, cycles % SPAN, log, work)
}

// Edition, entries, cycles, frames; entries that were held off by playing, and that had no register.
fn heading(log: &[u8], count: u32, cycles: u32, s: Sorts) -> Result<(), Unwritten> {
    let mut text = Text::<128>::new();
    text.labelled(b"log ", u64::from(little::u16_at(log, 0)));
    text.labelled(b" entries ", u64::from(count));
    text.labelled(b" cycles ", u64::from(cycles));
    text.labelled(b" frames ", u64::from(cycles / 480));
    text.labelled(b" held ", u64::from(s.held));
    text.labelled(b" none ", u64::from(s.none));
    text.words(b"\n");
    out::put(STDOUT_FILENO, text.as_slice())
}

fn refused(why: Refusal) -> Result<(), Unwritten> {
    out::refused(STDOUT_FILENO, why)
}

// The entries of the log, read one after another until none is left.
fn entries(log: &[u8], checked: Result<Log, Refusal>) -> u32
    ensures { result ≡ entries_in checked }
{
    let mut at: u32 = 0;
    loop {
        let s = reader::read_on(log, checked, at);
        match s.read {
            Ok(Some(_)) => at = s.at,
            Ok(None) => return at,
            Err(_) => return at,
        }
    }
}

fn accepted(log: &[u8], count: u32, cycles: u32, terminals: Terminals) -> Result<(), Unwritten> {
    let mut work = Work::beside_lines(cycles, SPAN, terminals);
    let s = sorts::of_log(log, count, &mut work);
    heading(log, count, cycles, s)?;
    frames(log, cycles, &mut work)
}

fn list(log: &[u8], terminals: Terminals) -> Result<(), Unwritten> {
    let c = register_log::check_log(log);
    match c {
        Ok(Log { cycles, .. }) => accepted(log, entries(log, c), cycles, terminals),
        Err(why) => refused(why),
    }
}

fn listed(terminals: Terminals) -> Result<(), Unwritten> {
    let mut space = [0u8; 65537];
    match input::whole(&mut space) {
        Ok(log) => list(log, terminals),
        Err(why) => refused(why),
    }
}

fn main(rt: HostRuntime) {
    let terminals = terminal::asked(rt.stdout(), rt.stderr());
    if listed(terminals).is_err() {
        print::unwritten(b"lister", terminals);
    }
}
