// The lines.
use register_log::Write;
use report::out;
use report::out::Unwritten;
use report::streams::STDOUT_FILENO;
use report::text::Text;

// Index, cycle, address, byte, and what became of it. The address always has four digits.
pub(crate) fn entry(index: u32, w: Write, what: &[u8]) -> Result<(), Unwritten> {
    let mut line = Text::<64>::new();
    line.number(u64::from(index));
    line.labelled(b" ", u64::from(w.due));
    line.words(b" 0x");
    line.hex(&w.address.to_be_bytes());
    line.labelled(b" ", u64::from(w.byte));
    line.words(what);
    out::put(STDOUT_FILENO, line.as_slice())
}

pub(crate) fn totals(taken: u32, held: u32, none: u32) -> Result<(), Unwritten> {
    let mut line = Text::<64>::new();
    line.labelled(b"taken ", u64::from(taken));
    line.labelled(b" held ", u64::from(held));
    line.labelled(b" none ", u64::from(none));
    line.words(b"\n");
    out::put(STDOUT_FILENO, line.as_slice())
}
