// What a replay has counted, and the line that ends it.
use crate::stream::End;
use report::print;

// The cases, the checks and the cycles so far, and the present op's number from 0 (as `oracle explain` counts).
#[derive(Clone, Copy, Default)]
pub(crate) struct Tally {
    cases: u64,
    checks: u64,
    cycles: u64,
    op: u64,
}

impl Tally {
    pub(crate) fn begin(&mut self) {
        self.cases = self.cases.wrapping_add(1);
    }

    pub(crate) fn checked(&mut self) {
        self.checks = self.checks.wrapping_add(1);
    }

    pub(crate) fn ran(&mut self, n: u32) {
        self.cycles = self.cycles.wrapping_add(u64::from(n));
    }

    pub(crate) fn next(&mut self) {
        self.op = self.op.wrapping_add(1);
    }

    fn place(&self, what: &[u8]) {
        print::line(b"differs case # op # ", &[self.cases, self.op]);
        print::line(what, &[]);
    }

    fn place_in(&self, what: &[u8], which: Option<&[u8]>) {
        self.place(what);
        if let Some(which) = which {
            print::line(b" ", &[]);
            print::line(which, &[]);
        }
    }

    pub(crate) fn tell(&self, end: End) {
        match end {
            End::Agreed => print::line(
                b"agreed # cases # checks # cycles\n",
                &[self.cases, self.checks, self.cycles],
            ),
            End::CutShort => self.place(b"the stream ends before its E\n"),
            End::Broken(what) => {
                self.place(what);
                print::line(b"\n", &[]);
            }
            End::Differs {
                what,
                which,
                expected,
                got,
            } => {
                self.place_in(what, which);
                values(expected, got);
            }
            End::DiffersAt {
                what,
                which,
                at,
                expected,
                got,
            } => {
                self.place_in(what, Some(which));
                print::line(b" offset #", &[at as u64]);
                values(u32::from(expected), u32::from(got));
            }
        }
    }
}

fn values(expected: u32, got: u32) {
    print::line(
        b" expected # got #\n",
        &[u64::from(expected), u64::from(got)],
    );
}
