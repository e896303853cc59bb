// What is written out, and whether all of it was.
ghost use Rattle.std.specs.Prelude.{◌≡◌, is_ok};

use crate::text::Text;
use refusal::Refusal;

// Not all could be written.
#[derive(Clone, Copy, Debug, PartialEq, Eq)]
pub struct Unwritten;

impl Unwritten {
    // Of a call of io that answers whether it wrote all.
    pub fn unless(all: bool) -> Result<(), Unwritten>
        ensures { is_ok result ≡ all }
    {
        all.then_some(()).ok_or(Unwritten)
    }
}

// No contract says when it is Ok, since none of io's does: whether a write goes through is the system's to say.
pub fn put(fd: i32, text: &[u8]) -> Result<(), Unwritten> {
    Unwritten::unless(io::write_all(fd, text))
}

// A refusal's line.
pub fn refused(fd: i32, why: Refusal) -> Result<(), Unwritten> {
    let mut line = Text::<64>::new();
    line.refused(why);
    line.words(b"\n");
    put(fd, line.as_slice())
}
