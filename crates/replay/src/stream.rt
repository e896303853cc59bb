// What the stream expects, and what ends a replay.
use refusal::Refusal;

#[derive(Clone, Copy)]
pub(crate) enum End {
    Agreed,
    CutShort,
    Broken(&'static [u8]),
    // `which` of an answer of more than one number
    Differs {
        what: &'static [u8],
        which: Option<&'static [u8]>,
        expected: u32,
        got: u32,
    },
    // a byte of an image
    DiffersAt {
        what: &'static [u8],
        which: &'static [u8],
        at: usize,
        expected: u8,
        got: u8,
    },
}

fn compared(
    what: &'static [u8],
    which: Option<&'static [u8]>,
    expected: u32,
    got: u32,
) -> Result<(), End> {
    if got != expected {
        return Err(End::Differs {
            what,
            which,
            expected,
            got,
        });
    }
    Ok(())
}

pub(crate) fn same(what: &'static [u8], expected: u32, got: u32) -> Result<(), End> {
    compared(what, None, expected, got)
}

pub(crate) fn same_in(
    what: &'static [u8],
    which: &'static [u8],
    expected: u32,
    got: u32,
) -> Result<(), End> {
    compared(what, Some(which), expected, got)
}

// What came of a call that the stream has accepted.
pub(crate) fn accepted<T: Drop>(what: &'static [u8], came: Result<T, Refusal>) -> Result<T, End> {
    came.map_err(|why| End::Differs {
        what,
        which: None,
        expected: 0,
        got: refusal::number(why),
    })
}
