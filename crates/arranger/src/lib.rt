// When two register writes that are due at one cycle may be exchanged, for the arranger program.
#![tactic(auto)]

ghost use Rattle.std.specs.Prelude.{◌≡◌, ◌+◌, ◌*◌, if◌then◌else◌, nat_lt};
ghost use Rattle.common.specs.Bits.{bits};
ghost use Rattle.arranger.specs.Arranger.{kept, beside_wave, beside_modulation, beside_channel, beside_stop, may_exchange, dropped, lead_to, lead_of};
ghost use Rattle.vsu.specs.Core.{decode_of};

use common::bits;
use vsu::unit;
use vsu::unit::Register;

// What leads from power-on to a state on which the order shows: nothing; a byte to an address; that, and then 0x80 to `start`.
#[derive(Clone, Copy)]
pub enum Lead {
    PowerOn,
    Filled { address: u32, byte: u8 },
    Playing { address: u32, byte: u8, start: u32 },
}

// "0x14: bit 0 envelope on, 1 envelope loop"; of channel 5 and of noise bits 4 to 6 besides.
fn mode_kept(index: usize, byte: u8) -> u8
    ensures { result ≡ (if nat_lt index 4 then bits 0 2 byte else bits 4 3 byte * 16 + bits 0 2 byte) }
{
    if index < 4 {
        bits::field(byte, 0, 2)
    } else {
        bits::field(byte, 4, 3) * 16 + bits::field(byte, 0, 2)
    }
}

// The bits of a byte that a channel keeps of a write at an offset.
#[tactic(auto, unfolding(crate::specs::Arranger::kept))]
fn kept(index: usize, offset: u32, byte: u8) -> u8
    ensures { result ≡ kept index offset byte }
{
    match offset {
        0x00 => bits::field(byte, 7, 1) * 128 + bits::field(byte, 0, 6),
        0x04 | 0x08 | 0x10 => byte,
        0x0C => bits::field(byte, 0, 3),
        0x14 => mode_kept(index, byte),
        0x18 => if index < 5 {
            bits::field(byte, 0, 3)
        } else {
            0
        },
        0x1C => if index == 4 { byte } else { 0 },
        _ => 0,
    }
}

#[tactic(auto, unfolding(crate::specs::Arranger::beside_wave))]
fn beside_wave(at: usize, byte: u8, other: Register, value: u8) -> bool
    ensures { result ≡ beside_wave at byte other value }
{
    match other {
        Register::Wave(to) => !(at == to) | (byte % 64 == value % 64),
        Register::Channel { offset, .. } => !(offset == 0x00),
        Register::Stop => !bits::flag(value, 0),
        Register::Modulation(_) | Register::Nothing => true,
    }
}

#[tactic(auto, unfolding(crate::specs::Arranger::beside_modulation))]
fn beside_modulation(at: usize, byte: u8, other: Register, value: u8) -> bool
    ensures { result ≡ beside_modulation at byte other value }
{
    match other {
        Register::Modulation(to) => !(at == to) | (byte == value),
        Register::Channel { index, offset } => !((index == 4) & (offset == 0x00)),
        Register::Stop => !bits::flag(value, 0),
        Register::Wave(_) | Register::Nothing => true,
    }
}

#[tactic(auto, unfolding(crate::specs::Arranger::beside_channel))]
fn beside_channel(index: usize, offset: u32, byte: u8, other: Register, value: u8) -> bool
    ensures { result ≡ beside_channel index offset byte other value }
{
    match other {
        Register::Wave(_) => !(offset == 0x00),
        Register::Modulation(_) => !((index == 4) & (offset == 0x00)),
        Register::Channel {
            index: i,
            offset: o,
        } => {
            !((index == i) & (offset == o))
                | (kept(index, offset, byte) == kept(index, offset, value))
        }
        Register::Stop => !((offset == 0x00) & bits::flag(byte, 7) & bits::flag(value, 0)),
        Register::Nothing => true,
    }
}

#[tactic(auto, unfolding(crate::specs::Arranger::beside_stop))]
fn beside_stop(byte: u8, other: Register, value: u8) -> bool
    ensures { result ≡ beside_stop byte other value }
{
    match other {
        Register::Wave(_) | Register::Modulation(_) => !bits::flag(byte, 0),
        Register::Channel { offset, .. } => !((offset == 0x00)
            & bits::flag(value, 7)
            & bits::flag(byte, 0)),
        Register::Stop | Register::Nothing => true,
    }
}

// Whether either order of the two writes, by `vsu::unit::write`, gives one state, whatever the state before them.
#[tactic(auto, unfolding(crate::specs::Arranger::beside))]
pub fn may_exchange(address: u32, byte: u8, other: u32, value: u8) -> bool
    ensures { result ≡ may_exchange address byte other value }
{
    let s = unit::decode(other);
    match unit::decode(address) {
        Register::Wave(at) => beside_wave(at, byte, s, value),
        Register::Modulation(at) => beside_modulation(at, byte, s, value),
        Register::Channel { index, offset } => beside_channel(index, offset, byte, s, value),
        Register::Stop => beside_stop(byte, s, value),
        Register::Nothing => true,
    }
}

#[tactic(auto, unfolding(crate::specs::Arranger::dropped))]
fn dropped(address: u32) -> bool
    ensures { result ≡ dropped (decode_of address) }
{
    matches!(
        unit::decode(address),
        Register::Wave(_) | Register::Modulation(_)
    )
}

#[tactic(auto, unfolding(crate::specs::Arranger::lead_to))]
fn lead_to(address: u32, byte: u8, other: u32, value: u8) -> Lead
    ensures { result ≡ lead_to address byte other value }
{
    let another = 255 - byte;
    if other == 0x580 {
        return Lead::Playing {
            address,
            byte: another,
            start: 0x500,
        };
    }
    if bits::flag(value, 7) {
        return Lead::Filled {
            address,
            byte: another,
        };
    }
    Lead::Playing {
        address,
        byte: another,
        start: other,
    }
}

// Where two writes may not be exchanged, the writes that lead from power-on to a state on which their order shows; where they may, it
// means nothing.
#[tactic(auto, unfolding(crate::specs::Arranger::lead_of))]
pub fn shown_after(address: u32, byte: u8, other: u32, value: u8) -> Lead
    ensures { result ≡ lead_of address byte other value }
{
    let one = dropped(address);
    let two = dropped(other);
    if one & !two {
        return lead_to(address, byte, other, value);
    }
    if two & !one {
        return lead_to(other, value, address, byte);
    }
    Lead::PowerOn
}
