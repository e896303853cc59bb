// The sixteen mark bits of a record.
#![tactic(auto)]

ghost use Rattle.std.specs.Prelude.{◌≡◌, ◌^◌, if◌then◌else◌, nat_lt};
ghost use Rattle.marks.specs.Marks.{is_set, marks_set, lowest_free, with_mark, without_mark};

// The bit of a slot; past the sixteenth there is none.
fn mark(slot: u32) -> u16
    ensures { result ≡ if nat_lt slot 16 then 2 ^ slot else 0 }
{
    1u16.checked_shl(slot).unwrap_or(0)
}

pub fn is_set(marks: u16, slot: u32) -> bool
    ensures { result ≡ is_set slot marks }
{
    marks.checked_shr(slot).unwrap_or(0) & 1 == 1
}

// "Ones of the sixteen mark bits give the count"
pub fn marks_set(marks: u16) -> u32
    ensures { result ≡ marks_set marks }
{
    marks.count_ones()
}

// "trailing zeros of their complement give the free slot": 16 if none is free
pub fn lowest_free(marks: u16) -> u32
    ensures { result ≡ lowest_free marks }
{
    (!marks).trailing_zeros()
}

pub fn with_mark(marks: u16, slot: u32) -> u16
    ensures { result ≡ with_mark slot marks }
{
    marks | mark(slot)
}

pub fn without_mark(marks: u16, slot: u32) -> u16
    ensures { result ≡ without_mark slot marks }
{
    marks & !mark(slot)
}
