// A log that is read from entry to entry. The check is made once, and its answer is kept beside the log and the place in it.
ghost use Rattle.std.specs.Prelude.{◌≡◌, ℕ};
ghost use Rattle.refusal.specs.Refusal.{Tells};
ghost use Rattle.register_log.specs.Log.{edition1, check_of, entry_in, handed, place_after, writes_of, entry_answer, checked_answer, log_with};

use crate::{Log, Write};
use refusal::Refusal;

#[derive(Clone, Copy)]
pub struct Reader<'a> {
    log: &'a [u8],
    checked: Result<Log, Refusal>,
    at: u32,
}

// What stands at a place, and the place after it.
#[derive(Clone, Copy)]
pub struct Step {
    pub read: Result<Option<Write>, Refusal>,
    pub at: u32,
}

// The place after an entry; where there is none, the same.
fn place_after(checked: Result<Log, Refusal>, at: u32) -> u32
    ensures { result ≡ place_after checked at }
{
    match checked {
        Ok(log) if at < log.count => at + 1,
        Ok(_) => at,
        Err(_) => at,
    }
}

// No `Iterator`, whose items end: of bytes that are no log `next` answers the refusal each time, as `refuses` of ReaderLaws says.
impl<'a> Reader<'a> {
    // A reader that stands at the log's first entry.
    pub fn new(log: &'a [u8]) -> Reader<'a>
        ensures { (result.log ≡ log.entry) × (result.checked ≡ check_of edition1 log.now) × (result.at ≡ 0) }
    {
        Reader {
            log,
            checked: crate::check_log(log),
            at: 0,
        }
    }

    // What stands at the reader's place; of an accepted log that is the write of that number, or that the log has ended.
    pub fn next(self) -> Result<Option<Write>, Refusal>
        ensures { (result ≡ entry_in edition1 self.entry.checked self.entry.log.now self.entry.at) × ((n k : ℕ) → check_of edition1 self.entry.log.now ≡ log_with n k → self.entry.checked ≡ log_with n k → result ≡ handed (writes_of edition1 self.entry.log.now) self.entry.at) × Tells (entry_answer result) (checked_answer self.entry.checked) }
    {
        crate::entry_in(self.log, self.checked, self.at)
    }

    // The reader at the place after.
    pub fn moved(self) -> Reader<'a>
        ensures { (result.log ≡ self.entry.log) × (result.checked ≡ self.entry.checked) × (result.at ≡ place_after self.entry.checked self.entry.at) }
    {
        Reader {
            at: place_after(self.checked, self.at),
            ..self
        }
    }
}

// Reads and moves on, by the parts of a reader, which a caller keeps: the log, the answer of its check, and the place. No method: it
// takes any answer and any place, which a reader outside this crate never holds.
pub fn read_on(log: &[u8], checked: Result<Log, Refusal>, at: u32) -> Step
    ensures { (result.read ≡ entry_in edition1 checked log.now at) × ((n k : ℕ) → check_of edition1 log.now ≡ log_with n k → checked ≡ log_with n k → result.read ≡ handed (writes_of edition1 log.now) at) × (result.at ≡ place_after checked at) × Tells (entry_answer result.read) (checked_answer checked) }
{
    let r = Reader { log, checked, at };
    Step {
        read: r.next(),
        at: r.moved().at,
    }
}
