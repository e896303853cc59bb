// The timed runs, the same as those of `oracle bench`: prints nothing on empty standard input. On a cycle count it runs that many cycles with
// all six voices playing by the cycle engine, and prints the sum of the frames; on `play` and a count by the quick engine. On `seek` and a
// count the quick engine goes so far without frames, and then 48,000 cycles with them. The worst cases by the quick engine: on `highest` and
// a count every frequency is 2047, on `noise` noise's alone, on `quiet` nothing plays, on `ticks` every envelope and the sweep have an interval
// of one tick. On `cycles` and a count every frequency is 2047, by the cycle engine. On a log of edition 1 it checks that ten thousand
// times; on `adds` and a count it fills a recorder's buffer so often, and prints a sum.
#![tactic(auto)]

ghost use Rattle.std.specs.Prelude.{◌<◌};

mod adds;
mod logs;

use refusal::Refusal;
use report::print;
use report::streams::STDIN_FILENO;
use report::sum::of_frames;
use vsu::unit;
use vsu::unit::Vsu;

// What all timed runs of both engines carry on.
#[derive(Clone, Copy)]
struct Timed {
    unit: Vsu,
    sum: u32,
}

impl Timed {
    fn run<F: Fn(&mut Vsu, u32, &mut [i16]) -> Result<u32, Refusal>>(
        &mut self,
        engine: &F,
        n: u32,
        out: &mut [i16],
    )
        requires { F.IsAlwaysCallable engine.now }
    {
        let frames = engine(&mut self.unit, n, out).unwrap_or(0);
        self.sum = of_frames(self.sum, out, frames);
    }
}

fn byte(x: u32) -> u8 {
    (x % 256) as u8
}

// One more decimal digit, of at most twelve; any other byte adds nothing.
fn digit(n: u64, d: u8) -> u64 {
    match d {
        b'0'..=b'9' => n % 100_000_000_000 * 10 + u64::from(d - b'0'),
        _ => n,
    }
}

fn decimal(text: &[u8]) -> u64 {
    text.iter().fold(0, |n, &d| digit(n, d))
}

// The first bytes of standard input, zeros behind a shorter one.
fn start() -> [u8; 16] {
    let mut text = [0u8; 16];
    io::read_full(STDIN_FILENO, &mut text);
    text
}

fn set(u: &mut Vsu, address: u32, value: u8) {
    let _ = unit::write(u, address, value);
}

fn waves(u: &mut Vsu) {
    for a in 0..160 {
        set(u, 4 * a, byte(a * 7 % 64));
    }
}

fn modulation(u: &mut Vsu) {
    for a in 0..32 {
        set(u, 0x280 + 4 * a, byte(a * 37));
    }
}

// Offset 0x14: envelope on and looping; channel 5 modulates with the table looped, noise has tap 13.
fn mode(channel: u32) -> u8 {
    match channel {
        4 => 0x73,
        5 => 0x23,
        _ => 3,
    }
}

fn voice(u: &mut Vsu, channel: u32)
    requires { channel < 6 }
{
    let base = 0x400 + 0x40 * channel;
    set(u, base + 4, byte(0xF7 - channel));
    set(u, base + 8, byte(0x40 * channel + 0x21));
    set(u, base + 12, if channel < 5 { 6 } else { 7 });
    set(u, base + 16, byte(0x90 + channel));
    set(u, base + 20, mode(channel));
    set(u, base + 24, byte(channel % 5));
    set(u, base + 28, if channel == 4 { 0x19 } else { 0 });
    set(u, base, 0x9F);
}

fn ready() -> Vsu {
    let mut u = unit::new();
    waves(&mut u);
    modulation(&mut u);
    for channel in 0..6 {
        voice(&mut u, channel);
    }
    u
}

// A byte at one offset of all six channels.
fn each(u: &mut Vsu, offset: u8, value: u8) {
    for channel in 0..6 {
        set(u, 0x400 + 0x40 * channel + u32::from(offset), value);
    }
}

// Every frequency 2047: a wave's sample every four cycles.
fn highest() -> Vsu {
    let mut u = ready();
    each(&mut u, 0x08, 0xFF);
    each(&mut u, 0x0C, 7);
    u
}

// Noise at its fastest: a clock every forty cycles.
fn hiss() -> Vsu {
    let mut u = ready();
    set(&mut u, 0x548, 0xFF);
    set(&mut u, 0x54C, 7);
    u
}

// Nothing plays.
fn quiet() -> Vsu {
    let mut u = ready();
    set(&mut u, 0x580, 1);
    u
}

// An interval of one tick on every envelope, as the sweep has it.
fn ticking() -> Vsu {
    let mut u = ready();
    each(&mut u, 0x10, 0x90);
    u
}

fn sought(n: u64) -> Vsu {
    let mut u = ready();
    let _ = quick::advance(&mut u, (n % 4_294_967_296) as u32);
    u
}

// In parts, for a part's frames have to fit the buffer.
fn sum_of<F: Fn(&mut Vsu, u32, &mut [i16]) -> Result<u32, Refusal>>(
    engine: F,
    unit: Vsu,
    n: u64,
) -> u32
    requires { F.IsAlwaysCallable engine }
{
    let mut out = [0i16; 16384];
    let mut t = Timed { unit, sum: 0 };
    for _ in 0..n / 3_000_000 {
        t.run(&engine, 3_000_000, &mut out);
    }
    t.run(&engine, (n % 3_000_000) as u32, &mut out);
    t.sum
}

fn main() {
    let text = start();
    if text[0] == 1 {
        logs::run(text);
        return;
    }
    let n = decimal(&text);
    if n == 0 {
        return;
    }
    let sum = match text[0] {
        b'a' => adds::sum_of(n),
        b'p' => sum_of(quick::run, ready(), n),
        b's' => sum_of(quick::run, sought(n), 48_000),
        b'h' => sum_of(quick::run, highest(), n),
        b'n' => sum_of(quick::run, hiss(), n),
        b'q' => sum_of(quick::run, quiet(), n),
        b't' => sum_of(quick::run, ticking(), n),
        b'c' => sum_of(unit::run, highest(), n),
        _ => sum_of(unit::run, ready(), n),
    };
    print::line(b"#\n", &[u64::from(sum)]);
}
