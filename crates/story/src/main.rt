// The story of a mark. A modulation table that doesn't loop runs past entry 31 on channel 5 in bar 1; a mark is set where bar 40
// begins, and playing goes on. Going to the mark, and seeking back, then give the frames of the unbroken run. A unit that is sent
// the last byte of each register gives others: "Errors that look right". Last a rehearsal: the voice is muted, and going to the mark
// keeps it so, also to one of a memory from before there were mutes, whose images are of edition 1.
#![tactic(auto)]

mod song;

use deck::{IMAGE_PLACE, MEMORY_SIZE, Player};
use little::Width;
use player::{go_to, mute, open, play, seek, set_free};
use refusal::Refusal;
use report::print;
use report::sum::of_frames;
use voice::channel_enum::Kind;
use vsu::unit;
use vsu::unit::Vsu;

// No call of the story is refused; one that were would say so.
fn accepted(a: Result<(), Refusal>) {
    if let Err(why) = a {
        print::line(b"refused #\n", &[u64::from(refusal::number(why))]);
    }
}

// A record and the sum of the frames that were played to come to it.
#[derive(Clone, Copy)]
struct Heard {
    player: Player,
    frames: u32,
    sum: u32,
}

impl Heard {
    fn from(player: Player) -> Heard {
        Heard {
            player,
            frames: 0,
            sum: 0,
        }
    }

    // n cycles on, 607,200 at the most: 1,265 frames.
    fn on(&mut self, n: u32, log: &[u8]) {
        let mut out = [0i16; 2530];
        let played = play(&mut self.player, n, log, &mut out);
        accepted(played.map(|_| ()));
        let made = played.map_or(0, |p| p.frames);
        self.frames = self.frames.wrapping_add(made);
        self.sum = of_frames(self.sum, &out, made);
    }

    // Bars 40 and 41.
    fn tell(&self, what: &[u8]) {
        print::line(what, &[]);
        print::line(
            b", bars 40 and 41: frames #, sum #",
            &[u64::from(self.frames), u64::from(self.sum)],
        );
    }

    fn compare(&self, what: &[u8], sum: u32) {
        self.tell(what);
        if self.sum == sum {
            print::line(b", same\n", &[]);
        } else {
            print::line(b", different\n", &[]);
        }
    }
}

fn bars(p: Player, n: u32, log: &[u8]) -> Heard {
    let mut h = Heard::from(p);
    for _ in 0..n {
        h.on(song::BAR, log);
    }
    h
}

// Channel 5's table: the index, and whether it is still read.
fn table(p: Player) {
    print::line(b"cycle #", &[u64::from(p.cycle)]);
    if let Kind::Swept { sweep, .. } = p.unit.voices[4].kind {
        print::line(b": modulation index #", &[u64::from(sweep.index)]);
        if sweep.enable {
            print::line(b", enabled\n", &[]);
        } else {
            print::line(b", not enabled\n", &[]);
        }
    }
}

// The wrong way: from power-on, the last byte that each register was sent, in the order of their addresses.
fn rebuilt(log: &[u8], before: u32) -> Vsu {
    let mut u = unit::new();
    for address in 0..0x600 {
        if let Some(byte) = song::sent(log, address, before) {
            let _ = unit::write(&mut u, u32::from(address), byte);
        }
    }
    u
}

fn wrong_way(p: Player, log: &[u8], sum: u32) {
    let q = Player {
        unit: rebuilt(log, p.cycle),
        ..p
    };
    table(q);
    bars(q, 2, log).compare(b"last byte of each register", sum);
}

// Back to bar 40, by the mark and by the cycle, from a record that has played on.
fn back(p: Player, cycle: u32, log: &[u8], memory: &[u8], sum: u32) {
    let mut gone = p;
    accepted(go_to(&mut gone, 0, log, memory));
    table(gone);
    bars(gone, 2, log).compare(b"gone to the mark", sum);
    let mut sought = p;
    accepted(seek(&mut sought, cycle, log));
    table(sought);
    bars(sought, 2, log).compare(b"sought back", sum);
}

// The log opened, and played to where bar 1 begins.
fn begun(log: &[u8]) -> Player {
    let opened = open(log);
    accepted(opened.answer);
    let mut h = Heard::from(opened.player);
    h.on(song::UPBEAT, log);
    h.player
}

// A run with no mark and no way back.
fn unbroken(log: &[u8], sum: u32) {
    let p = bars(begun(log), 39, log).player;
    bars(p, 2, log).compare(b"opened anew and played through", sum);
}

// Bar 1, in which the table ends, then to bar 40.
fn to_bar_40(log: &[u8]) -> Player {
    let p = begun(log);
    table(p);
    let q = bars(p, 1, log).player;
    table(q);
    bars(q, 38, log).player
}

// To the mark with the voice muted: silence; then unmuted there.
fn silent_there(what: &[u8], p: Player, log: &[u8], memory: &[u8], sum: u32) {
    let mut q = p;
    accepted(go_to(&mut q, 0, log, memory));
    bars(q, 2, log).compare(what, sum);
    accepted(mute(&mut q, 0));
    bars(q, 2, log).compare(b"unmuted there", sum);
}

// The mark is slot 0; an image's edition is its first number, and with nothing muted the two editions differ in that alone.
fn rehearsal(p: Player, log: &[u8], memory: &mut [u8], sum: u32) {
    let mut q = p;
    accepted(mute(&mut q, 16));
    silent_there(b"muted and gone to the mark", q, log, memory, sum);
    little::put(memory, IMAGE_PLACE, Width::U16, 1);
    silent_there(
        b"muted and gone to a mark of edition 1",
        q,
        log,
        memory,
        sum,
    );
}

fn story(log: &[u8], memory: &mut [u8]) {
    let mut p = to_bar_40(log);
    accepted(set_free(&mut p, log, memory));
    table(p);
    let h = bars(p, 2, log);
    h.tell(b"mark set and played on");
    print::line(b"\n", &[]);
    back(h.player, p.cycle, log, memory, h.sum);
    unbroken(log, h.sum);
    wrong_way(p, log, h.sum);
    rehearsal(h.player, log, memory, h.sum);
}

fn main() {
    let log = song::song();
    let mut memory = [0u8; MEMORY_SIZE];
    story(&log, &mut memory);
}
