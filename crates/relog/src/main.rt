// Replays a stream of logs of the oracle (oracle/README.md) on the log, through its public calls. Prints one line: that all agreed,
// or what differs first.
#![tactic(auto)]

use refusal::Refusal;
use register_log::{Log, Write};
use report::input::{exactly, fill};
use report::print;

// An answer as the stream has it.
type Numbers = [u32; 4];

// What ends a replay.
#[derive(Clone, Copy)]
enum End {
    Agreed,
    CutShort,
    Broken(&'static [u8]),
    Differs {
        what: &'static [u8],
        expected: Numbers,
        got: Numbers,
    },
}

// Where a replay stands: the bytes of the present log, what was counted, and the present op's number from 0.
#[derive(Clone, Copy, Default)]
struct Replay {
    size: usize,
    logs: u64,
    checks: u64,
    op: u64,
}

// A number past the end is 0, as the fourth of a D.
fn numbers(b: &[u8]) -> Numbers {
    [0, 4, 8, 12].map(|at| little::u32_at(b, at))
}

fn refused(why: Refusal) -> Numbers {
    [2, refusal::number(why), refusal::carried(why), 0]
}

fn check_answer(c: Result<Log, Refusal>) -> Numbers {
    match c {
        Ok(Log { count, cycles }) => [0, 0, count, cycles],
        Err(why) => [refusal::number(why), refusal::carried(why), 0, 0],
    }
}

fn entry_answer(e: Result<Option<Write>, Refusal>) -> Numbers {
    match e {
        Ok(Some(w)) => [0, w.due, u32::from(w.address), u32::from(w.byte)],
        Ok(None) => [1, 0, 0, 0],
        Err(why) => refused(why),
    }
}

fn due_answer(c: Result<u32, Refusal>) -> Numbers {
    match c {
        Ok(n) => [0, n, 0, 0],
        Err(why) => refused(why),
    }
}

// Whether the decision by two reads takes this number and neither of its neighbours.
fn only(log: &[u8], count: u32, cycle: u32, n: u32) -> bool {
    register_log::stands_at(log, count, cycle, n)
        && !register_log::stands_at(log, count, cycle, n.wrapping_add(1))
        && !register_log::stands_at(log, count, cycle, n.wrapping_sub(1))
}

fn decided(log: &[u8], cycle: u32, n: u32) -> Result<(), End> {
    if let Ok(Log { count, .. }) = register_log::check_log(log) {
        if !only(log, count, cycle, n) {
            return Err(End::Broken(b"D is decided otherwise by two reads"));
        }
    }
    Ok(())
}

impl Replay {
    fn compare(&mut self, what: &'static [u8], expected: Numbers, got: Numbers) -> Result<(), End> {
        if got != expected {
            return Err(End::Differs {
                what,
                expected,
                got,
            });
        }
        self.checks = self.checks.wrapping_add(1);
        Ok(())
    }

    // The answer of a log comes behind its bytes.
    fn check(&mut self, space: &mut [u8]) -> Result<(), End> {
        let size = little::u32_at(&exactly::<4>().ok_or(End::CutShort)?, 0) as usize;
        let Some(log) = space.get_mut(..size) else {
            return Err(End::Broken(b"G is too long"));
        };
        fill(log).ok_or(End::CutShort)?;
        self.size = size;
        self.logs = self.logs.wrapping_add(1);
        let b = exactly::<16>().ok_or(End::CutShort)?;
        self.compare(
            b"G",
            numbers(&b),
            check_answer(register_log::check_log(log)),
        )
    }

    fn entry(&mut self, log: &[u8]) -> Result<(), End> {
        let b = exactly::<20>().ok_or(End::CutShort)?;
        let e = register_log::entry(log, little::u32_at(&b, 0));
        self.compare(b"I", numbers(&b[4..]), entry_answer(e))
    }

    fn due(&mut self, log: &[u8]) -> Result<(), End> {
        let b = exactly::<16>().ok_or(End::CutShort)?;
        let cycle = little::u32_at(&b, 0);
        let c = register_log::due_before(log, cycle);
        self.compare(b"D", numbers(&b[4..]), due_answer(c))?;
        decided(log, cycle, little::u32_at(&b, 8))
    }

    // The present log.
    fn log<'s>(&self, space: &'s [u8]) -> Result<&'s [u8], End> {
        space.get(..self.size).ok_or(End::Broken(b"no log"))
    }

    fn next(&mut self, space: &mut [u8]) -> Result<(), End> {
        let [letter] = exactly::<1>().ok_or(End::CutShort)?;
        match letter {
            b'G' => self.check(space)?,
            b'I' => self.entry(self.log(space)?)?,
            b'D' => self.due(self.log(space)?)?,
            b'E' => return Err(End::Agreed),
            _ => return Err(End::Broken(b"is no op")),
        }
        self.op = self.op.wrapping_add(1);
        Ok(())
    }

    fn place(&self, what: &[u8]) {
        print::line(b"differs log # op # ", &[self.logs, self.op]);
        print::line(what, &[]);
    }

    fn tell(&self, end: End) {
        match end {
            End::Agreed => print::line(b"agreed # logs # checks\n", &[self.logs, self.checks]),
            End::CutShort => self.place(b"the stream ends before its E\n"),
            End::Broken(what) => {
                self.place(what);
                print::line(b"\n", &[]);
            }
            End::Differs {
                what,
                expected,
                got,
            } => {
                self.place(what);
                print::line(b" expected # # # #", &expected.map(u64::from));
                print::line(b" got # # # #\n", &got.map(u64::from));
            }
        }
    }
}

// Nothing says that a stream ends, and a proved loop has to: so the turns are counted, to a number that no run comes to.
fn main() {
    let mut space = [0u8; 65536];
    let mut r = Replay::default();
    for _ in 0..u64::MAX {
        if let Err(end) = r.next(&mut space) {
            r.tell(end);
            return;
        }
    }
}
