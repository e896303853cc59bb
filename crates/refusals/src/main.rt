// Tries every refusal of every call of the player, on damaged logs, records, arguments, mark memory and buffers: each damage alone,
// then with each of those that come after it. A line has the call, the damages, the refusal's number and the value it carries,
// whether all that was given and lent is as before, and whether the refusal is that of the damage that document 01 has first. Then
// calls at the edges of the refusals.
#![tactic(auto)]

mod call;
mod damage;
mod trial;

use crate::call::Call;
use crate::damage::{Damage, Given, ROWS, Row};
use crate::trial::{Seen, tried};
use deck::MEMORY_SIZE;
use little::Width;
use player::{lowest_free, marks_set};
use refusal::Refusal;
use report::print;

// The call and what it was given.
fn head(c: Call, what: &[u8]) {
    print::line(c.name(), &[]);
    print::line(b": ", &[]);
    print::line(what, &[]);
}

// A refusal as it is printed.
fn numbers(why: Refusal) -> [u64; 2] {
    [
        u64::from(refusal::number(why)),
        u64::from(refusal::carried(why)),
    ]
}

fn told(a: Result<(), Refusal>) {
    match a {
        Ok(()) => print::line(b": accepted", &[]),
        Err(why) => print::line(b": refused # #", &numbers(why)),
    }
}

// The rows are in document 01's order, so that of two damages the first is the one refused.
fn verdict(s: Seen, expected: Refusal) {
    if s.kept {
        print::line(b" kept", &[]);
    } else {
        print::line(b" CHANGED", &[]);
    }
    if s.answer == Err(expected) {
        print::line(b" ok\n", &[]);
    } else {
        print::line(b" WRONG\n", &[]);
    }
}

// A damage, alone or with a later one.
fn damaged(g: Given, c: Call, first: &Row, later: Option<&Row>) {
    head(c, first.name);
    let s = match later {
        Some(second) => {
            print::line(b" + ", &[]);
            print::line(second.name, &[]);
            tried(c, g, &[first.damage, second.damage])
        }
        None => tried(c, g, &[first.damage]),
    };
    told(s.answer);
    verdict(s, first.refusal);
}

// A damage alone, then with each later one that the call is refused for.
fn with_each(g: Given, c: Call, first: &Row, later: &[Row]) {
    damaged(g, c, first, None);
    for second in later {
        if second.calls.contains(&c) {
            damaged(g, c, first, Some(second));
        }
    }
}

fn refusals(g: Given, c: Call) {
    for (i, row) in ROWS.iter().enumerate() {
        if row.calls.contains(&c) {
            with_each(g, c, row, &ROWS[i + 1..]);
        }
    }
}

// A call with damages or none: what it came to, and whether all is as before.
fn line(c: Call, what: &[u8], g: Given, damages: &[Damage]) {
    let s = tried(c, g, damages);
    head(c, what);
    told(s.answer);
    print::line(
        b", frames #, cycle # applied # marks # free # mutes #",
        &[
            u64::from(s.frames),
            u64::from(s.player.cycle),
            u64::from(s.player.applied),
            u64::from(marks_set(&s.player)),
            u64::from(lowest_free(&s.player)),
            u64::from(s.player.unit.mutes),
        ],
    );
    if s.kept {
        print::line(b", kept\n", &[]);
    } else {
        print::line(b", changed\n", &[]);
    }
}

// The record that most calls are given, at cycle 2,000 with slot 3 set and two voices muted; a play or a seek to 2,960, for which two
// frames are due; room for six.
fn given() -> Given {
    Given {
        output: 80,
        mutes: 9,
        cycle: 2000,
        applied: 5,
        marks: 8,
        slot: 3,
        bits: 63,
        end: 2960,
        log: 64,
        memory: MEMORY_SIZE,
        sides: 12,
    }
}

fn to(g: Given, end: u32, sides: usize) -> Given {
    Given { end, sides, ..g }
}

fn edge(c: Call, what: &[u8], g: Given) {
    line(c, what, g, &[]);
}

fn plays(g: Given) {
    edge(Call::Play, b"960 cycles", g);
    edge(Call::Play, b"0 cycles", to(g, 2000, 0));
    edge(Call::Play, b"399 cycles, no side", to(g, 2399, 0));
    edge(Call::Play, b"400 cycles, one side", to(g, 2400, 1));
    edge(Call::Play, b"400 cycles, three sides", to(g, 2400, 3));
}

fn plays_to_end(g: Given) {
    edge(Call::Play, b"to L, twelve sides", to(g, 4800, 12));
    edge(Call::Play, b"to L, eleven sides", to(g, 4800, 11));
    edge(Call::Play, b"beyond L, eleven sides", to(g, 4801, 11));
    edge(Call::Play, b"4294967295 cycles", to(g, 1999, 12));
    let end = Given {
        cycle: 4800,
        applied: 6,
        marks: 0,
        ..g
    };
    edge(Call::Play, b"0 cycles at L", to(end, 2000, 12));
    edge(Call::Play, b"1 cycle at L", to(end, 2001, 12));
}

fn seeks(g: Given) {
    edge(Call::Open, b"the log", g);
    edge(Call::Seek, b"on", g);
    edge(Call::Seek, b"to the present cycle", to(g, 2000, 0));
    edge(Call::Seek, b"to a due cycle", to(g, 3000, 0));
    edge(Call::Seek, b"to L", to(g, 4800, 0));
    edge(Call::Seek, b"back", to(g, 1000, 0));
    edge(Call::Seek, b"back to 0", to(g, 0, 0));
}

fn sets(g: Given) {
    line(Call::SetMark, b"a free slot", g, &[Damage::Slot(15)]);
    edge(Call::SetMark, b"a slot in use", g);
    line(
        Call::SetMark,
        b"memory of 6849 bytes",
        g,
        &[Damage::MemoryEnds(6849)],
    );
    edge(Call::SetFree, b"slot 3 in use", g);
    line(
        Call::SetFree,
        b"slot 3 cleared",
        g,
        &[Damage::Marks(0xFFF7)],
    );
}

// "A call checks only what it is lent": clear has no log to find a wrong place by.
fn clears(g: Given) {
    edge(Call::ClearMark, b"slot 3", g);
    line(
        Call::ClearMark,
        b"record cycle above L",
        g,
        &[Damage::Cycle(4801, 6)],
    );
    line(
        Call::ClearMark,
        b"record applied wrong",
        g,
        &[Damage::Behind],
    );
    edge(Call::GoTo, b"slot 3", g);
    let t = Given { slot: 4, ..g };
    line(
        Call::GoTo,
        b"a slot no call wrote",
        t,
        &[Damage::Marks(0xFFFF)],
    );
}

// A slot that holds an image of edition 1; and mutes, which need no place in a log either.
fn mutes(g: Given) {
    line(
        Call::GoTo,
        b"slot 3 of edition 1",
        g,
        &[Damage::Memory(1292, Width::U16, 1)],
    );
    edge(Call::Mute, b"all six", g);
    line(Call::Mute, b"none", g, &[Damage::Bits(0)]);
    line(Call::Mute, b"4294967295", g, &[Damage::Bits(4_294_967_295)]);
    line(
        Call::Mute,
        b"record cycle above L",
        g,
        &[Damage::Cycle(4801, 6)],
    );
}

fn main() {
    let g = given();
    for c in [
        Call::Open,
        Call::Play,
        Call::Seek,
        Call::SetMark,
        Call::SetFree,
        Call::ClearMark,
        Call::GoTo,
        Call::Mute,
    ] {
        refusals(g, c);
    }
    plays(g);
    plays_to_end(g);
    seeks(g);
    sets(g);
    clears(g);
    mutes(g);
}
