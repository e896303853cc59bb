// Runs document 01's "Run by program" figures and the refusals of the unit's calls, and prints what each gave.
#![tactic(auto)]

use refusal::Refusal;
use report::print;
use report::sum::side;
use voice::channel_enum::Kind;
use vsu::unit;
use vsu::unit::Vsu;

// No call of the figures is refused, from power-on on.

fn set(u: &mut Vsu, address: u32, value: u8) {
    let _ = unit::write(u, address, value);
}

fn after(mut u: Vsu, n: u32) -> Vsu {
    let _ = unit::advance(&mut u, n);
    u
}

fn frames_of(u: &mut Vsu, n: u32, out: &mut [i16]) -> u32 {
    unit::run(u, n, out).unwrap_or(0)
}

fn frames(n: u32) {
    let mut out = [0i16; 4];
    let made = frames_of(&mut unit::new(), n, &mut out);
    print::line(b"# cycles # frames\n", &[u64::from(n), u64::from(made)]);
}

// Channel 1's position.
fn position(u: Vsu) -> u8 {
    match u.voices[0].kind {
        Kind::Wave { position, .. } | Kind::Swept { position, .. } => position,
        Kind::Noise { .. } => 0,
    }
}

fn moves(before: u32, then: u32) {
    let mut u = unit::new();
    set(&mut u, 0x400, 0x80);
    print::line(
        b"frequency #: position # after # cycles, # after #\n",
        &[
            u64::from(u.voices[0].channel.pitch.frequency),
            u64::from(position(after(u, before))),
            u64::from(before),
            u64::from(position(after(u, then))),
            u64::from(then),
        ],
    );
}

// Whether channel 1 plays.
fn plays(u: Vsu) {
    if u.voices[0].channel.live.playing {
        print::line(b"plays", &[]);
    } else {
        print::line(b"stopped", &[]);
    }
}

fn stops(what: &[u8], value: u8, before: u32, then: u32) {
    let mut u = unit::new();
    set(&mut u, 0x400, value);
    print::line(what, &[]);
    plays(after(u, before));
    print::line(b" after # cycles, ", &[u64::from(before)]);
    plays(after(u, then));
    print::line(b" after #\n", &[u64::from(then)]);
}

// Channel 5's current frequency.
fn current(u: Vsu) -> u16 {
    match u.voices[4].kind {
        Kind::Swept { sweep, .. } => sweep.current,
        _ => 0,
    }
}

fn acts(before: u32, then: u32) {
    let mut u = unit::new();
    set(&mut u, 0x508, 0x55);
    set(&mut u, 0x50C, 0x05);
    print::line(
        b"channel 5 frequency: written #, current # after # cycles, # after #\n",
        &[
            u64::from(u.voices[4].channel.pitch.frequency),
            u64::from(current(after(u, before))),
            u64::from(before),
            u64::from(current(after(u, then))),
            u64::from(then),
        ],
    );
}

// The four writes of document 01's own log.
fn own_log() -> Vsu {
    let mut u = unit::new();
    for (address, value) in [(0x000, 0x3F), (0x404, 0xF0), (0x410, 0xF0), (0x400, 0x80)] {
        set(&mut u, address, value);
    }
    u
}

// Its frames from one run.
fn whole(n: u32) {
    let mut out = [0i16; 4];
    let made = frames_of(&mut own_log(), n, &mut out);
    print::line(
        b"own log: # cycles # frames\n",
        &[u64::from(n), u64::from(made)],
    );
}

// One cycle, and its frame if it made one.
fn one(u: &mut Vsu, cycle: u32) {
    let mut out = [0i16; 2];
    if frames_of(u, 1, &mut out) == 1 {
        let [left, right] = out;
        print::line(
            b"# # #\n",
            &[
                u64::from(cycle),
                u64::from(side(left)),
                u64::from(side(right)),
            ],
        );
    }
}

// Its frames from runs of one cycle, so that the cycle of each is counted and not taken from 480.
fn cycles(n: u32) {
    let mut u = own_log();
    for cycle in 1..=n {
        one(&mut u, cycle);
    }
}

fn answer(a: Result<(), Refusal>) {
    match a {
        Ok(()) => print::line(b"accepted", &[]),
        Err(why) => print::line(
            b"refused # #",
            &[
                u64::from(refusal::number(why)),
                u64::from(refusal::carried(why)),
            ],
        ),
    }
}

// Whether each side is still the 7 that it was before the call.
fn buffer(out: &[i16]) {
    if out.iter().all(|&side| side == 7) {
        print::line(b", buffer untouched\n", &[]);
    } else {
        print::line(b", buffer written\n", &[]);
    }
}

fn beyond() -> Vsu {
    Vsu {
        output: 480,
        ..unit::new()
    }
}

fn told(what: &[u8], a: Result<(), Refusal>, output: u32) {
    print::line(what, &[]);
    answer(a);
    print::line(b", output #", &[u64::from(output)]);
}

fn run_beyond(out: &mut [i16]) {
    let mut u = beyond();
    let ran = unit::run(&mut u, 480, out).map(|_| ());
    told(b"run of output 480: ", ran, u.output);
    buffer(out);
}

fn write_beyond() {
    let mut u = beyond();
    let said = unit::write(&mut u, 0x580, 1).map(|_| ());
    told(b"write to output 480: ", said, u.output);
    print::line(b"\n", &[]);
}

fn advance_beyond() {
    let mut u = beyond();
    let moved = unit::advance(&mut u, 480);
    told(b"advance of output 480: ", moved, u.output);
    print::line(b"\n", &[]);
}

// A run from power-on into the room that `out` is.
fn room(n: u32, out: &mut [i16]) {
    let ran = unit::run(&mut unit::new(), n, out);
    print::line(
        b"# cycles into # sides: ",
        &[u64::from(n), out.len() as u64],
    );
    answer(ran.map(|_| ()));
    print::line(b", # frames", &[u64::from(ran.unwrap_or(0))]);
    buffer(out);
}

fn refusals() {
    let mut two = [7i16; 2];
    let mut three = [7i16; 3];
    let mut four = [7i16; 4];
    run_beyond(&mut two);
    write_beyond();
    advance_beyond();
    room(960, &mut three);
    room(960, &mut four);
    room(959, &mut two);
}

fn main() {
    frames(479);
    frames(480);
    moves(8191, 8192);
    stops(b"0x400 <- 0xBF: ", 0xBF, 76_804, 76_805);
    stops(b"0x400 <- 0xA0: ", 0xA0, 76_804, 76_805);
    acts(19_200, 19_201);
    whole(960);
    cycles(960);
    refusals();
}
