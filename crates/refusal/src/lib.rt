// The refusals of documents 01 and 02, once for the whole project.
#![tactic(auto)]

ghost use Rattle.std.specs.Prelude.{◌≡◌};
ghost use Rattle.refusal.specs.Refusal.{number_of, carried_of};

// One case for each number, in order: 1 to 16 are 01's table, 17 and 18 are 02's.
#[derive(Clone, Copy, Debug, PartialEq, Eq)]
pub enum Refusal {
    State,
    Room,
    LogShort,
    LogEdition,
    LogHeader,
    LogCount,
    LogSize,
    LogEntry(u32),
    ImageSize,
    ImageHeader,
    ImageField(u32),
    BeyondEnd,
    Place,
    MarkNumber,
    MarkUnset,
    MarksFull,
    CycleEarlier,
    LengthShort,
}

// The number; the words beside it are what `./vsu` says of a refusal.
pub fn number(r: Refusal) -> u32
    ensures { result ≡ number_of r }
{
    match r {
        Refusal::State => 1, // a state is out of range
        Refusal::Room => 2, // there is too little room, or the log is too long for the program
        Refusal::LogShort => 3, // the log is shorter than its header
        Refusal::LogEdition => 4, // the log's edition is not known
        Refusal::LogHeader => 5, // the log's header length or entry offset is wrong
        Refusal::LogCount => 6, // the log has more than 1,000,000 entries
        Refusal::LogSize => 7, // the log's size does not fit its count of entries
        Refusal::LogEntry(_) => 8, // an entry of the log is at fault
        Refusal::ImageSize => 9, // the image does not have 420 bytes
        Refusal::ImageHeader => 10, // the image's header differs
        Refusal::ImageField(_) => 11, // a field of the image is at fault
        Refusal::BeyondEnd => 12, // the play or seek goes beyond the end of the log
        Refusal::Place => 13, // the record or mark does not stand where the log has it
        Refusal::MarkNumber => 14, // there is no such mark
        Refusal::MarkUnset => 15, // the mark is not set
        Refusal::MarksFull => 16, // all marks are set
        Refusal::CycleEarlier => 17, // the cycle is earlier than the one before it
        Refusal::LengthShort => 18, // the length is not above the last due cycle
    }
}

// The index or offset that comes with the number; 0 where none does.
pub fn carried(r: Refusal) -> u32
    ensures { result ≡ carried_of r }
{
    match r {
        Refusal::LogEntry(index) => index,
        Refusal::ImageField(offset) => offset,
        Refusal::State => 0,
        Refusal::Room => 0,
        Refusal::LogShort => 0,
        Refusal::LogEdition => 0,
        Refusal::LogHeader => 0,
        Refusal::LogCount => 0,
        Refusal::LogSize => 0,
        Refusal::ImageSize => 0,
        Refusal::ImageHeader => 0,
        Refusal::BeyondEnd => 0,
        Refusal::Place => 0,
        Refusal::MarkNumber => 0,
        Refusal::MarkUnset => 0,
        Refusal::MarksFull => 0,
        Refusal::CycleEarlier => 0,
        Refusal::LengthShort => 0,
    }
}
