// The states that the two orders make, as images, and where these differ.
use crate::pair::Pair;
use arranger::Lead;
use vsu::unit;

// The lowest byte that differs: its number, and its values in the order as given and in the other.
#[derive(Clone, Copy)]
pub(crate) struct Difference {
    pub(crate) at: usize,
    pub(crate) given: u8,
    pub(crate) exchanged: u8,
}

// A byte to an address, 0x80 to `start`, and then the pair; of a unit in range, as all from power-on on are, no call is refused. The one
// function over a unit, and without a loop: such functions are what costs the prover most.
fn image_after(address: u32, byte: u8, start: u32, p: Pair) -> [u8; 420] {
    let mut u = unit::new();
    let _ = unit::write(&mut u, address, byte);
    let _ = unit::write(&mut u, start, 0x80);
    let _ = unit::write(&mut u, p.address, p.byte);
    let _ = unit::write(&mut u, p.other, p.value);
    let mut image = [0u8; 420];
    let _ = image::write_image(u, &mut image);
    image
}

// 0x300, where there is no register and a write leaves the state, stands for what a lead hasn't got.
fn image_of(lead: Lead, p: Pair) -> [u8; 420] {
    match lead {
        Lead::PowerOn => image_after(0x300, 0, 0x300, p),
        Lead::Filled { address, byte } => image_after(address, byte, 0x300, p),
        Lead::Playing {
            address,
            byte,
            start,
        } => image_after(address, byte, start, p),
    }
}

fn lowest(given: [u8; 420], exchanged: [u8; 420]) -> Option<Difference> {
    for at in 0..420 {
        if given[at] != exchanged[at] {
            return Some(Difference {
                at,
                given: given[at],
                exchanged: exchanged[at],
            });
        }
    }
    None
}

// Some, by the theorem and since an image reads back as its state; not proved here.
pub(crate) fn shown(lead: Lead, p: Pair) -> Option<Difference> {
    let exchanged = Pair {
        address: p.other,
        byte: p.value,
        other: p.address,
        value: p.byte,
    };
    lowest(image_of(lead, p), image_of(lead, exchanged))
}
