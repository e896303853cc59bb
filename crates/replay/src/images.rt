// The ops on images: the present state's, with and without a byte set, and any bytes read as one.
use crate::stream::{End, accepted, same, same_in};
use image::{read_image, write_image};
use refusal::Refusal;
use report::input::{exactly, fill};
use report::sum::of_bytes;
use vsu::unit;
use vsu::unit::Vsu;

// The number of a refusal and the value that it carries; zeros for a call that was accepted, as a stream has them, which may pair any
// two numbers.
#[derive(Clone, Copy)]
struct Numbers {
    number: u32,
    carried: u32,
}

impl Numbers {
    fn of(a: Result<(), Refusal>) -> Numbers {
        match a {
            Ok(()) => Numbers {
                number: 0,
                carried: 0,
            },
            Err(why) => Numbers {
                number: refusal::number(why),
                carried: refusal::carried(why),
            },
        }
    }

    // A u8 number, a u16 carried.
    fn at(b: &[u8]) -> Numbers {
        Numbers {
            number: u32::from(little::byte_at(b, 0)),
            carried: u32::from(little::u16_at(b, 1)),
        }
    }
}

// Whether an image is the one expected.
fn held(what: &'static [u8], which: &'static [u8], expected: &[u8], got: &[u8]) -> Result<(), End> {
    for (at, (&expected, &got)) in expected.iter().zip(got).enumerate() {
        if got != expected {
            return Err(End::DiffersAt {
                what,
                which,
                at,
                expected,
                got,
            });
        }
    }
    Ok(())
}

fn state(image: &[u8]) -> Result<(), End> {
    let b = exactly::<4>().ok_or(End::CutShort)?;
    same(b"S sum", little::u32_at(&b, 0), of_bytes(image))
}

fn whole(image: &[u8]) -> Result<(), End> {
    let b = exactly::<420>().ok_or(End::CutShort)?;
    held(b"I", b"image", &b, image)
}

// "a refused image the power-on state"
fn handed_back(what: &'static [u8], image: &[u8]) -> Result<(), End> {
    let mut b = [0u8; 420];
    let _ = write_image(unit::new(), &mut b);
    held(what, b"handed back", &b, image)
}

// An accepted image "always writes back as edition 2", with every other byte as it was.
fn again(what: &'static [u8], bytes: &[u8], image: &mut [u8; 420]) -> Result<(), End> {
    same_in(what, b"edition", 2, u32::from(little::u16_at(image, 0)))?;
    image[0] = little::byte_at(bytes, 0);
    held(what, b"again", bytes, image)
}

// The bytes read as an image: the answer, then the image of the state that came with it, which is always in range.
fn read(what: &'static [u8], bytes: &[u8], expected: Numbers) -> Result<(), End> {
    let m = read_image(bytes);
    let got = Numbers::of(m.answer);
    same_in(what, b"number", expected.number, got.number)?;
    same_in(what, b"carried", expected.carried, got.carried)?;
    let mut image = [0u8; 420];
    let _ = write_image(m.state, &mut image);
    match m.answer {
        Ok(()) => again(what, bytes, &mut image),
        Err(_) => handed_back(what, &image),
    }
}

// The image with a byte set.
fn byte(image: &mut [u8]) -> Result<(), End> {
    let b = exactly::<6>().ok_or(End::CutShort)?;
    let Some(place) = image.get_mut(usize::from(little::u16_at(&b, 0))) else {
        return Err(End::Broken(b"B is past the end"));
    };
    *place = b[2];
    read(b"B", image, Numbers::at(&b[3..]))
}

// An op on the present state.
pub(crate) fn asked(u: Vsu, letter: u8) -> Result<(), End> {
    let mut image = [0u8; 420];
    accepted(b"image refused", write_image(u, &mut image))?;
    match letter {
        b'S' => state(&image),
        b'I' => whole(&image),
        _ => byte(&mut image),
    }
}

pub(crate) fn bytes() -> Result<(), End> {
    let size = usize::from(little::u16_at(&exactly::<2>().ok_or(End::CutShort)?, 0));
    let mut space = [0u8; 1024];
    let Some(bytes) = space.get_mut(..size) else {
        return Err(End::Broken(b"D is too long"));
    };
    fill(bytes).ok_or(End::CutShort)?;
    let b = exactly::<3>().ok_or(End::CutShort)?;
    read(b"D", bytes, Numbers::at(&b))
}
