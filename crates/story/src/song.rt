// The log: channel 5 with a wave and a modulation table that doesn't loop, an upbeat, then 41 bars with a few writes.
ghost use Rattle.std.specs.Prelude.{◌<◌};

use little::Width;
use register_log::write_at;

// The table's 32 entries are read at the fast ticks, the last at cycle 32 × 19,201 = 614,432: in bar 1.
pub(crate) const UPBEAT: u32 = 607_200;

pub(crate) const BAR: u32 = 12_000;

// 32 samples, 32 modulation entries, 14 writes.
const COUNT: u32 = 78;

// A write's due cycle, address and byte.
type Entry = (u32, u16, u8);

// Volume, frequency, envelope, modulation without loop, bank 0, interval 1, play. Then volumes, frequencies and an envelope in bars 8,
// 16, 24, 33, 40 and 41.
const WRITES: [Entry; 14] = [
    (0, 0x504, 0xFF),
    (0, 0x508, 0x00),
    (0, 0x50C, 0x07),
    (0, 0x510, 0xF0),
    (0, 0x514, 0x51),
    (0, 0x518, 0x00),
    (0, 0x51C, 0x10),
    (0, 0x500, 0x80),
    (691_200, 0x504, 0xF8),
    (790_000, 0x508, 0x2B),
    (883_201, 0x510, 0xC8),
    (1_000_000, 0x504, 0xEA),
    (1_080_000, 0x508, 0x40),
    (1_087_200, 0x504, 0xAE),
];

// The samples go up in twos, the modulation entries in nines, through both signs.
fn entry_of(k: u32) -> Entry
    requires { k < 78 }
{
    match k {
        0..=31 => (0, (4 * k) as u16, (2 * k) as u8),
        32..=63 => (0, (0x280 + 4 * (k - 32)) as u16, (9 * k % 256) as u8),
        _ => WRITES[(k - 64) as usize],
    }
}

fn lay(out: &mut [u8], (due, address, byte): Entry) {
    little::put(out, 0, Width::U32, due);
    little::put(out, 4, Width::U16, u32::from(address));
    little::put(out, 6, Width::U8, u32::from(byte));
}

fn lay_header(log: &mut [u8]) {
    little::put(log, 0, Width::U16, 1);
    little::put(log, 2, Width::U16, 16);
    little::put(log, 4, Width::U32, COUNT);
    little::put(log, 8, Width::U32, 16);
    little::put(log, 12, Width::U32, UPBEAT + 41 * BAR);
}

pub(crate) fn song() -> [u8; 640] {
    let mut log = [0u8; 640];
    lay_header(&mut log);
    for k in 0..COUNT {
        lay(&mut log[16 + 8 * k as usize..], entry_of(k));
    }
    log
}

// The last byte that an address was sent before a cycle, if it was sent one.
pub(crate) fn sent(log: &[u8], address: u16, before: u32) -> Option<u8> {
    (0..COUNT)
        .rev()
        .map(|k| write_at(log, k))
        .find(|w| w.due < before && w.address == address)
        .map(|w| w.byte)
}
