// The recorder's adds, as bench/add.c makes them.
use recorder::Recorder;

// A whole buffer of them. What they write hangs on the sum so far.
fn filled(sum: u32, buffer: &mut [u8; 1048576]) -> Recorder {
    let mut r = recorder::start(buffer).recorder;
    let first = sum % 2_147_483_648;
    for i in 0..131_070 {
        let _ = recorder::add(
            &mut r,
            first + 16_000 * i,
            ((first + i) % 65_536) as u16,
            (i % 256) as u8,
            buffer,
        );
    }
    r
}

// Which byte is added hangs on the sum too, so that the compiler can't leave out those that are not read.
fn round(sum: u32, buffer: &mut [u8; 1048576]) -> u32 {
    let r = filled(sum, buffer);
    let _ = recorder::finish(r, 4_294_967_295, buffer);
    let n = sum.wrapping_add(r.entries);
    n.wrapping_add(u32::from(buffer[(n % 1_048_576) as usize]))
}

// So many rounds over a buffer of 1,048,576 bytes.
pub(crate) fn sum_of(rounds: u64) -> u32 {
    let mut buffer = [0u8; 1048576];
    let mut sum = 0;
    for _ in 0..rounds {
        sum = round(sum, &mut buffer);
    }
    sum
}
