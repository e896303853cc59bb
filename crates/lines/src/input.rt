// An input cut into lines, as steps that read nothing: no contract can say what a read brings.
ghost use Rattle.std.specs.Prelude.{◌≡◌, length};
ghost use Rattle.lines.specs.Input.{new_input, filled_of, begun_of, stepped_of, front_of};

// Where the input stands: the next of the bytes that were read, how many were, how many are kept of a line, whether the line has ended,
// and whether more may come.
#[derive(Clone, Copy)]
pub struct Input {
    pub at: usize,
    pub size: usize,
    pub kept: usize,
    pub ended: bool,
    pub more: bool,
}

impl Input {
    pub fn new() -> Input
        ensures { result ≡ new_input }
    {
        Input {
            at: 0,
            size: 0,
            kept: 0,
            ended: false,
            more: true,
        }
    }

    // A read has brought so many bytes: none where there are no more, or where it failed. A rest without a newline at the end is a line too:
    // but of an input that failed, what was kept is no line.
    #[tactic(auto, unfolding(crate::specs::Input::filled_of))]
    pub fn fill(&mut self, size: usize, failed: bool)
        ensures { self.new ≡ filled_of self.old size failed }
    {
        if size == 0 {
            self.ended = !failed && self.kept > 0;
            self.more = false;
        } else {
            self.at = 0;
            self.size = size;
        }
    }

    // The next line begins.
    pub fn begin(&mut self)
        ensures { self.new ≡ begun_of self.old }
    {
        self.kept = 0;
        self.ended = false;
    }

    // One byte on. Of a line the front is kept, as much as there is room for.
    #[tactic(auto, unfolding(crate::specs::Input::stepped_of, crate::specs::Input::front_of))]
    pub fn step(&mut self, bytes: &[u8], line: &mut [u8])
        ensures value { self.new ≡ stepped_of self.old bytes.now (length line.old) }
        ensures line_after { line.new ≡ front_of self.old bytes.now line.old }
    {
        let Some(&byte) = bytes.get(self.at) else {
            return;
        };
        self.at += 1;
        if byte == b'\n' {
            self.ended = true;
        } else if self.kept < line.len() {
            line[self.kept] = byte;
            self.kept += 1;
        }
    }
}
