// Long work, of which a person who waits is told how much is done.
ghost use Rattle.std.specs.Prelude.{◌≡◌, ◌&&◌, not, ltb};
ghost use Rattle.report.specs.Progress.{percent_of};

use crate::progress;
use crate::terminal::Terminals;

// All that is to be done, the hundredths that were told last, and where they may be told.
#[derive(Clone, Copy)]
pub struct Work {
    pub all: u32,
    pub told: u32,
    pub terminals: Terminals,
}

impl Work {
    // Nothing has been told, not even 0: hence the 100. Work that is done at once has nothing to tell.
    pub fn new(all: u32, terminals: Terminals) -> Work
        ensures all { result.all ≡ all }
        ensures told { result.told ≡ 100 }
        ensures terminals { result.terminals ≡ terminals }
    {
        Work {
            all,
            told: 100,
            terminals,
        }
    }

    // Work that writes lines meanwhile. Where these go to a terminal nothing is told: the two would mix. Nor is it of work of one span, which
    // is done before there is anything to tell.
    pub fn beside_lines(all: u32, span: u32, terminals: Terminals) -> Work
        ensures all { result.all ≡ all }
        ensures told { result.told ≡ 100 }
        ensures output { result.terminals.output ≡ terminals.output }
        ensures error { result.terminals.error ≡ (terminals.error && not terminals.output && ltb span all) }
    {
        let error = terminals.error && !terminals.output && all > span;
        Work::new(all, Terminals { error, ..terminals })
    }

    pub fn tell(&mut self, done: u32)
        ensures { self.new ≡ record self.old { told = percent_of done self.old.all } }
    {
        self.told = progress::show(self.told, done, self.all, self.terminals);
    }
}
