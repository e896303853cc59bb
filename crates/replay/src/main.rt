// Replays a stream of the oracle (oracle/README.md) on the unit and its image, through their public calls. Prints one line: that
// all agreed, or what differs first.
#![tactic(auto)]

mod images;
mod stream;
mod tally;

use crate::stream::{End, accepted, same};
use crate::tally::Tally;
use refusal::Refusal;
use report::input::exactly;
use report::sum::of_frames;
use vsu::unit;
use vsu::unit::Vsu;

// Where a replay stands.
#[derive(Clone, Copy)]
struct Replay {
    unit: Vsu,
    tally: Tally,
}

impl Replay {
    // A write's address and byte.
    fn write(&mut self) -> Result<(), End> {
        let b = exactly::<5>().ok_or(End::CutShort)?;
        accepted(
            b"W refused",
            unit::write(&mut self.unit, little::u32_at(&b, 0), b[4]),
        )?;
        Ok(())
    }

    // A run's cycles, frames and sum.
    fn run<F: Fn(&mut Vsu, u32, &mut [i16]) -> Result<u32, Refusal>>(
        &mut self,
        engine: F,
        out: &mut [i16],
    ) -> Result<(), End>
        requires { F.IsAlwaysCallable engine }
    {
        let b = exactly::<12>().ok_or(End::CutShort)?;
        let n = little::u32_at(&b, 0);
        let frames = accepted(b"R refused", engine(&mut self.unit, n, out))?;
        same(b"R frames", little::u32_at(&b, 4), frames)?;
        same(b"R sum", little::u32_at(&b, 8), of_frames(0, out, frames))?;
        self.tally.ran(n);
        self.tally.checked();
        Ok(())
    }

    // The cycles to advance.
    fn advance<F: Fn(&mut Vsu, u32) -> Result<(), Refusal>>(
        &mut self,
        engine: F,
        what: &'static [u8],
    ) -> Result<(), End>
        requires { F.IsAlwaysCallable engine }
    {
        let n = little::u32_at(&exactly::<4>().ok_or(End::CutShort)?, 0);
        let moved = engine(&mut self.unit, n);
        self.tally.ran(n);
        accepted(what, moved)
    }

    // Mute bits.
    fn mute(&mut self) -> Result<(), End> {
        let [mutes] = exactly::<1>().ok_or(End::CutShort)?;
        if mutes > 63 {
            return Err(End::Broken(b"M is above 63"));
        }
        self.unit.mutes = mutes;
        Ok(())
    }

    // A case that begins with an image.
    fn load(&mut self) -> Result<(), End> {
        let m = image::read_image(&exactly::<420>().ok_or(End::CutShort)?);
        self.unit = m.state;
        accepted(b"L refused", m.answer)?;
        self.tally.begin();
        Ok(())
    }

    fn power_on(&mut self) {
        self.unit = unit::new();
        self.tally.begin();
    }

    // An op that leaves the unit.
    fn ask(&mut self, letter: u8) -> Result<(), End> {
        match letter {
            b'S' | b'I' | b'B' => images::asked(self.unit, letter)?,
            b'D' => images::bytes()?,
            b'E' => return Err(End::Agreed),
            _ => return Err(End::Broken(b"is no op")),
        }
        self.tally.checked();
        Ok(())
    }

    // Q and J are R and A by the quick engine.
    fn next(&mut self, out: &mut [i16]) -> Result<(), End> {
        let [letter] = exactly::<1>().ok_or(End::CutShort)?;
        match letter {
            b'P' => self.power_on(),
            b'L' => self.load()?,
            b'W' => self.write()?,
            b'R' => self.run(unit::run, out)?,
            b'Q' => self.run(quick::run, out)?,
            b'A' => self.advance(unit::advance, b"A refused")?,
            b'J' => self.advance(quick::advance, b"J refused")?,
            b'M' => self.mute()?,
            _ => self.ask(letter)?,
        }
        self.tally.next();
        Ok(())
    }
}

// Nothing says that a stream ends, and a proved loop has to: so the turns are counted, to a number that no run comes to.
fn main() {
    let mut out = [0i16; 8192];
    let mut r = Replay {
        unit: unit::new(),
        tally: Tally::default(),
    };
    for _ in 0..u64::MAX {
        if let Err(end) = r.next(&mut out) {
            r.tally.tell(end);
            return;
        }
    }
}
