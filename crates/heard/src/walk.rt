// The unit led through a log by its writes and the quick engine, and what it says of each write.
use crate::output;
use refusal::Refusal;
use register_log::Write;
use report::out::Unwritten;
use report::terminal::Terminals;
use report::work::Work;
use vsu::unit;
use vsu::unit::{Said, Vsu};

// The most cycles of one call of the unit, so that a long way can be told between two.
const PIECE: u32 = 10_000_000;

// How many entries were taken, were held off by playing, had no register.
#[derive(Clone, Copy, Default)]
struct Tally {
    taken: u32,
    held: u32,
    none: u32,
}

impl Tally {
    // One entry more, and what is to be told of it.
    fn count(&mut self, index: u32, w: Write, said: Said) -> Result<(), Unwritten> {
        match said {
            Said::Taken => {
                self.taken = self.taken.wrapping_add(1);
                Ok(())
            }
            Said::Held => {
                self.held = self.held.wrapping_add(1);
                output::entry(index, w, b" held\n")
            }
            Said::NoRegister => {
                self.none = self.none.wrapping_add(1);
                output::entry(index, w, b" none\n")
            }
        }
    }
}

// The unit's state is in range from power-on on, so that no call of it is refused.
#[derive(Clone, Copy)]
struct Walk {
    unit: Vsu,
    cycle: u32,
    work: Work,
}

impl Walk {
    // On to a cycle, if it is not there yet.
    fn reach(&mut self, due: u32) {
        while self.cycle < due {
            let n = PIECE.min(due - self.cycle);
            let _ = quick::advance(&mut self.unit, n);
            self.cycle += n;
            self.work.tell(self.cycle);
        }
    }

    fn write(&mut self, w: Write) -> Result<Said, Refusal> {
        unit::write(&mut self.unit, u32::from(w.address), w.byte)
    }
}

// Behind the last entry there is nothing to hear.
pub(crate) fn through(
    log: &[u8],
    count: u32,
    cycles: u32,
    terminals: Terminals,
) -> Result<(), Unwritten> {
    let mut tally = Tally::default();
    let mut walk = Walk {
        unit: unit::new(),
        cycle: 0,
        work: Work::beside_lines(cycles, PIECE, terminals),
    };
    for i in 0..count {
        let w = register_log::write_at(log, i);
        walk.reach(w.due);
        if let Ok(said) = walk.write(w) {
            tally.count(i, w, said)?;
        }
    }
    walk.work.tell(cycles);
    output::totals(tally.taken, tally.held, tally.none)
}
