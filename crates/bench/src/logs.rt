// The check of a log, ten thousand times, as bench/check.c makes it.
ghost use Rattle.std.specs.Prelude.{◌≤◌, length};

use refusal::Refusal;
use register_log::Log;
use report::print;
use report::streams::STDIN_FILENO;

fn told(c: Result<Log, Refusal>) {
    match c {
        Ok(Log { count, cycles }) => print::line(
            b"entries # cycles #\n",
            &[u64::from(count), u64::from(cycles)],
        ),
        Err(why) => print::line(
            b"refused # #\n",
            &[
                u64::from(refusal::number(why)),
                u64::from(refusal::carried(why)),
            ],
        ),
    }
}

// What a check answers, in one number.
fn code(c: Result<Log, Refusal>) -> u32 {
    match c {
        Ok(Log { count, .. }) => count,
        Err(why) => refusal::number(why),
    }
}

// Each turn changes the last entry's byte, which no check reads, so that the compiler can't make one check of them all.
fn checks(bytes: &mut [u8]) -> u32 {
    let mut sum: u32 = 0;
    for i in 1..10_000u32 {
        let end = bytes.len();
        if end > 1 {
            bytes[end - 2] = (i % 256) as u8;
        }
        sum = sum.wrapping_add(code(register_log::check_log(bytes)));
    }
    told(register_log::check_log(bytes));
    sum
}

// The rest of a log whose first 16 bytes were read; its size.
fn read(head: [u8; 16], bytes: &mut [u8]) -> usize
    ensures { result ≤ length bytes.new }
{
    if bytes.len() < 16 {
        return 0;
    }
    bytes[..16].copy_from_slice(&head);
    16 + io::read_full(STDIN_FILENO, &mut bytes[16..])
}

// A log of at most 65,536 bytes: the prover runs out of stack on an array as long as a full log, 8,000,016 bytes.
pub(crate) fn run(head: [u8; 16]) {
    let mut bytes = io::large_buffer();
    let end = read(head, &mut bytes);
    let sum = checks(&mut bytes[..end]);
    print::line(b"sum #\n", &[u64::from(sum)]);
}
