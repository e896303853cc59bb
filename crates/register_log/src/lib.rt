// The register log: bytes checked once, and read as writes.
#![tactic(auto)]

pub mod reader;

ghost use Rattle.std.specs.Prelude.{◌≡◌, ℕ, ◌+◌, ◌<◌, ◌≤◌, eqb, length};
ghost use Rattle.little.specs.Little.{number};
ghost use Rattle.refusal.specs.Refusal.{Tells};
ghost use Rattle.register_log.specs.Log.{edition1, entry_place, most_entries, log_answer, checked_by, check_of, checked_answer, entries_answer, write_at, due_at, due_before, writes_from, entry_in, entry_of, entry_answer, due_before_of, counted_answer, due_earlier, stands_at, log_with};

use refusal::Refusal;

#[derive(Clone, Copy)]
pub struct Write {
    pub due: u32,
    pub address: u16,
    pub byte: u8,
}

// What a check finds of a log: the number of its entries, and L.
#[derive(Clone, Copy)]
pub struct Log {
    pub count: u32,
    pub cycles: u32,
}

// Where an entry's bytes begin. (`as`: Rust has no From of a u32 for usize.)
pub fn entry_place(index: u32) -> usize
    ensures { result ≡ entry_place edition1 index }
{
    16 + 8 * (index as usize)
}

// The due cycle of an entry; of bytes that aren't there, 0.
pub fn due_at(log: &[u8], index: u32) -> u32
    ensures { result ≡ due_at edition1 log.now index }
{
    little::u32_at(log, entry_place(index))
}

// An entry's write; of bytes that aren't there, zeros.
pub fn write_at(log: &[u8], index: u32) -> Write
    ensures { result ≡ write_at edition1 log.now index }
{
    let at = entry_place(index);
    Write {
        due: little::u32_at(log, at),
        address: little::u16_at(log, at + 4),
        byte: little::byte_at(log, at + 6),
    }
}

// The due cycle at a place that is known to be in the log: one load, where `due_at` tests each byte's place.
fn due_in(log: &[u8], at: usize) -> u32
    requires { at + 3 < length log.now }
    ensures { result ≡ number 4 log.now at }
{
    u32::from_le_bytes([log[at], log[at + 1], log[at + 2], log[at + 3]])
}

// Never inlined: compiled into `entry` the pass takes half as much again.
#[inline(never)]
fn check_entries(log: &[u8], count: u32, cycles: u32) -> Result<Log, Refusal>
    requires { (count ≤ most_entries) × (length log.now ≡ entry_place edition1 count) }
    ensures { result ≡ checked_by (entries_answer edition1 log.now cycles count 0) count cycles }
{
    let mut before = 0;
    for i in 0..count {
        let at = entry_place(i);
        let due = due_in(log, at);
        if (log[at + 7] != 0) | (due >= cycles) | (due < before) {
            return Err(Refusal::LogEntry(i));
        }
        before = due;
    }
    Ok(Log { count, cycles })
}

// Refusals 3 to 8, or the number of entries and L.
pub fn check_log(log: &[u8]) -> Result<Log, Refusal>
    ensures { (result ≡ check_of edition1 log.now) × Tells (checked_answer result) (log_answer edition1 log.now) }
{
    if log.len() < 16 {
        return Err(Refusal::LogShort);
    }
    if little::u16_at(log, 0) != 1 {
        return Err(Refusal::LogEdition);
    }
    if (little::u16_at(log, 2) != 16) | (little::u32_at(log, 8) != 16) {
        return Err(Refusal::LogHeader);
    }
    let count = little::u32_at(log, 4);
    if count > 1_000_000 {
        return Err(Refusal::LogCount);
    }
    if log.len() != entry_place(count) {
        return Err(Refusal::LogSize);
    }
    check_entries(log, count, little::u32_at(log, 12))
}

// The write of an entry, or that the log has ended, by the answer of a check.
pub(crate) fn entry_in(
    log: &[u8],
    checked: Result<Log, Refusal>,
    index: u32,
) -> Result<Option<Write>, Refusal>
    ensures { (result ≡ entry_in edition1 checked log.now index) × Tells (entry_answer result) (checked_answer checked) }
{
    let Log { count, .. } = checked?;
    if index < count {
        return Ok(Some(write_at(log, index)));
    }
    Ok(None)
}

// The same of any bytes, by a check of its own.
pub fn entry(log: &[u8], index: u32) -> Result<Option<Write>, Refusal>
    ensures { (result ≡ entry_of edition1 log.now index) × Tells (entry_answer result) (log_answer edition1 log.now) }
{
    entry_in(log, check_log(log), index)
}

fn count_due(log: &[u8], count: u32, cycle: u32) -> u32
    ensures { result ≡ due_before (writes_from edition1 log.now count 0) cycle }
{
    let mut n = 0;
    for i in 0..count {
        if due_at(log, i) < cycle {
            n += 1;
        }
    }
    n
}

// The number of entries due before a cycle.
pub fn due_before(log: &[u8], cycle: u32) -> Result<u32, Refusal>
    ensures { (result ≡ due_before_of edition1 log.now cycle) × Tells (counted_answer result) (log_answer edition1 log.now) }
{
    let Log { count, .. } = check_log(log)?;
    Ok(count_due(log, count, cycle))
}

// The due cycle of the entry before, 0 for the first.
fn due_earlier(log: &[u8], index: u32) -> u32
    ensures { result ≡ due_earlier edition1 log.now index }
{
    match index.checked_sub(1) {
        Some(before) => due_at(log, before),
        None => 0,
    }
}

// Whether `number` entries of an accepted log of `count` are due before `cycle`, by two reads and no pass.
pub fn stands_at(log: &[u8], count: u32, cycle: u32, number: u32) -> bool
    ensures value { result ≡ stands_at edition1 log.now count cycle number }
    ensures by_index { (k : ℕ) → check_of edition1 log.now ≡ log_with count k → result ≡ eqb number (due_before (writes_from edition1 log.now count 0) cycle) }
{
    let earlier = due_earlier(log, number);
    let next = due_at(log, number);
    (number <= count) & ((number == 0) | (earlier < cycle)) & ((count <= number) | (cycle <= next))
}
