// The progress of long work, for a person who waits.
ghost use Rattle.std.specs.Prelude.{◌≡◌};
ghost use Rattle.report.specs.Progress.{percent_of};

use crate::streams::STDERR_FILENO;
use crate::terminal::Terminals;

// `as`: the quotient is below 100, and `u32::try_from` would have an Err that never comes.
fn percent(done: u32, all: u32) -> u32
    ensures { result ≡ percent_of done all }
{
    if done >= all {
        return 100;
    }
    (u64::from(done) * 100 / u64::from(all)) as u32
}

// How much is done, in hundredths; told on standard error, where that is a terminal, when it is another number than the last.
pub fn show(last: u32, done: u32, all: u32, terminals: Terminals) -> u32
    ensures { result ≡ percent_of done all }
{
    let now = percent(done, all);
    if now != last {
        if terminals.error {
            io::write_all(STDERR_FILENO, b"\r");
            io::print_decimal(STDERR_FILENO, u64::from(now));
            io::write_all(STDERR_FILENO, b"%");
            if now == 100 {
                io::write_all(STDERR_FILENO, b"\n");
            }
        }
    }
    now
}
