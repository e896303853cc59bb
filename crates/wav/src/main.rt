// The log on standard input as a 16-bit stereo WAV of its frames on standard output. A line `mute B` may stand before the log: its
// frames are then those with these mutes.
#![tactic(auto)]

mod riff;

ghost use Rattle.std.specs.Prelude.{◌≤◌, length};

use deck::Player;
use lines::words::behind;
use refusal::Refusal;
use register_log::Log;
use report::out::Unwritten;
use report::streams::{STDERR_FILENO, STDIN_FILENO, STDOUT_FILENO};
use report::terminal::Terminals;
use report::work::Work;
use report::{out, print, terminal};

// A log of any length is played in plays of at most 1,024 frames: their cycles.
const SPAN: u32 = 480 * 1024;

// The most bytes of a log, and of the line before it: `mute 4294967295` and its end.
const MOST: usize = 1_048_576;

const LINE: usize = 16;

// n cycles, at most a span and not beyond L: so the play is never refused.
fn play(p: &mut Player, n: u32, log: &[u8], work: &mut Work) -> Result<(), Unwritten> {
    let mut sides = [0i16; 2048];
    let mut bytes = [0u8; 4096];
    let made = player::play(p, n, log, &mut sides).map_or(0, |played| played.frames);
    let written = out::put(STDOUT_FILENO, riff::frames(&mut bytes, &sides, made));
    work.tell(p.cycle);
    written
}

// A record at the log's beginning, with these mutes; those of more than six bits have been refused.
fn begun(log: &[u8], mutes: u32) -> Player {
    let mut p = player::open(log).player;
    let _ = player::mute(&mut p, mutes);
    p
}

fn frames(log: &[u8], cycles: u32, mutes: u32, terminals: Terminals) -> Result<(), Unwritten> {
    let mut p = begun(log, mutes);
    let mut work = Work::new(cycles, terminals);
    for _ in 0..cycles / SPAN {
        play(&mut p, SPAN, log, &mut work)?;
    }
    play(&mut p, cycles % SPAN, log, &mut work)
}

fn sound(log: &[u8], cycles: u32, mutes: u32, terminals: Terminals) -> Result<(), Unwritten> {
    let mut header = [0u8; 44];
    riff::header(&mut header, cycles);
    out::put(STDOUT_FILENO, &header)?;
    frames(log, cycles, mutes, terminals)
}

fn refused(why: Refusal) {
    let _ = out::refused(STDERR_FILENO, why);
}

fn convert(log: &[u8], mutes: u32, terminals: Terminals) {
    let c = register_log::check_log(log);
    match c {
        Ok(Log { cycles, .. }) => {
            if sound(log, cycles, mutes, terminals).is_err() {
                print::unwritten(b"wav", terminals);
            }
        }
        Err(why) => refused(why),
    }
}

fn limited(log: &[u8], mutes: u32, terminals: Terminals) {
    if mutes > 63 {
        refused(Refusal::State);
    } else if log.len() > MOST {
        refused(Refusal::Room);
    } else {
        convert(log, mutes, terminals);
    }
}

// Where the first line ends, if it is no longer than a `mute` line can be; else where that would be, or where the input ends.
fn line_end(input: &[u8]) -> usize
    ensures { result ≤ length input.now }
{
    let front = &input[..input.len().min(LINE - 1)];
    front
        .iter()
        .position(|&b| b == b'\n')
        .unwrap_or(front.len())
}

// Any other first line is the log's own.
fn split(input: &[u8], terminals: Terminals) {
    let end = line_end(input);
    let bits = behind(&input[..end], b"mute ");
    if let Some(mutes) = bits {
        if end < input.len() && input[end] == b'\n' {
            limited(&input[end + 1..], mutes, terminals);
            return;
        }
    }
    limited(input, 0, terminals);
}

// The input has room for one byte more than a line and a log may have, so that a longer one shows.
fn main(rt: HostRuntime) {
    let terminals = terminal::asked(rt.stdout(), rt.stderr());
    let mut space = [0u8; 1048593];
    let size = io::read_full(STDIN_FILENO, &mut space);
    split(&space[..size], terminals);
}
