// Standard input, line after line.
ghost use Rattle.std.specs.Prelude.{◌≡◌, ◌≤◌, length, IfErr, IfOk, IfSome, Some, None, false, if◌then◌else◌};
ghost use Rattle.lines.specs.Input.{new_input};

use crate::input::Input;
use std::io::{Read, Result, Stdin};

#[derive(Drop)]
pub struct Reader {
    from: Stdin,
    bytes: [u8; 4096],
    input: Input,
}

impl Reader {
    pub fn new(from: Stdin) -> Reader
        ensures { result.input ≡ new_input }
    {
        Reader {
            from,
            bytes: [0u8; 4096],
            input: Input::new(),
        }
    }

    // The next line, of which the front is kept: how many bytes of it. A line is the bytes up to a newline; a rest without one at the end is a
    // line too, but behind a read that failed there is none. Nothing says that a line ends, so the loop counts its turns, to a number that no
    // line uses up. It goes by a copy of where the input stands: in the reader itself a line of 35 bytes takes twice as long.
    #[tactic(auto, using(crate::proofs::InputLaws::kept_in), unfolding(crate::specs::Input::filled_of))]
    pub fn next_line(&mut self, line: &mut [u8]) -> Result<Option<usize>>
        ensures value { IfOk result (λ k. k ≡ (if self.new.input.ended then Some self.new.input.kept else None)) }
        ensures failed { IfErr result (λ why. self.new.input.more ≡ false) }
        ensures within { IfOk result (λ k. IfSome k (λ n. n ≤ length line.new)) }
    {
        let mut input = self.input;
        input.begin();
        for _ in 0..u64::MAX {
            if input.ended || !input.more {
                break;
            }
            if input.at < input.size {
                input.step(&self.bytes, line);
            } else {
                let got = self.from.read(&mut self.bytes);
                input.fill(got.unwrap_or(0), got.is_err());
                if let Err(why) = got {
                    self.input = input;
                    return Err(why);
                }
            }
        }
        self.input = input;
        Ok(input.ended.then_some(input.kept))
    }
}
