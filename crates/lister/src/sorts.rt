// What became of a log's entries: a pass over the log before it is listed.
use crate::SPAN;
use deck::Counts;
use report::work::Work;

// How many entries were held off by playing, how many had no register.
#[derive(Clone, Copy, Default)]
pub(crate) struct Sorts {
    pub(crate) held: u32,
    pub(crate) none: u32,
}

impl Sorts {
    // A play more, by its counts.
    fn add(&mut self, c: Counts) {
        self.held = self.held.wrapping_add(c.held);
        self.none = self.none.wrapping_add(c.none);
    }
}

// Up to the play that applies the last entry. No play goes beyond the log's end, so that none is refused. The listing is still to come, so
// this is told as half of what is to be done.
pub(crate) fn of_log(log: &[u8], count: u32, work: &mut Work) -> Sorts {
    let mut sides = [0i16; 2048];
    let mut p = player::open(log).player;
    let mut s = Sorts::default();
    for _ in 0..=work.all / SPAN {
        if p.applied >= count {
            break;
        }
        let left = work.all.saturating_sub(p.cycle);
        if let Ok(played) = player::play(&mut p, left.min(SPAN), log, &mut sides) {
            s.add(played.counts);
        }
        work.tell(p.cycle / 2);
    }
    s
}
