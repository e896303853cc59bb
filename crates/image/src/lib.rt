// The state image, 420 bytes: the fields' values, by the table.
#![tactic(auto)]

ghost use Rattle.std.specs.Prelude.{◌≡◌, ◌-◌, [], ◌++◌, length, replicate};
ghost use Rattle.std.proofs.lemmas.List.Edits.{sets};
ghost use Rattle.refusal.specs.Refusal.{Tells};
ghost use Rattle.table.specs.Table.{field_count, known_edition, newest};
ghost use Rattle.image.specs.Image.{bytes_of, fields_in, refusal_at, fields_answer, image_answer, written_of, known_in, read_answer, loaded_by, read_of};

use refusal::Refusal;
use table::{FIELDS, Known, NEWEST, SHIFT, SIZE};
use vsu::unit;
use vsu::unit::Vsu;

// The state that an image holds, and how the reading ended.
#[derive(Clone, Copy)]
pub struct Loaded {
    pub state: Vsu,
    pub answer: Result<(), Refusal>,
}

fn put_fields(out: &mut [u8], f: &[u32; FIELDS])
    ensures { out.new ≡ sets out.old 0 (bytes_of newest f.now newest.fields) }
{
    for (i, value) in f.iter().enumerate() {
        let r = table::row_at(NEWEST, i as u16);
        little::put(out, r.offset as usize, r.width, *value);
    }
}

// The edition that an image names. A number that no edition has is left to the newest, whose header it breaks: no TryFrom, since it
// refuses nothing.
#[tactic(auto, unfolding(crate::specs::Image::known_in))]
fn edition_in(b: &[u8]) -> Known
    ensures { result ≡ known_in b.now }
{
    match little::u16_at(b, 0) {
        1 => Known::First,
        _ => Known::Second,
    }
}

// An edition with fewer fields than the newest has zeros behind them.
fn take_fields(edition: Known, b: &[u8]) -> [u32; FIELDS]
    ensures { result ≡ fields_in (known_edition edition) b.now ++ replicate (newest.fields - field_count edition) 0 }
{
    let mut f = [0; FIELDS];
    for i in 0..table::fields_in(edition) {
        let r = table::row_at(edition, i as u16);
        f[i] = little::number_at(b, r.offset as usize, r.width);
    }
    f
}

fn refusal_at(offset: u32) -> Refusal
    ensures { result ≡ refusal_at offset }
{
    if offset < 16 {
        Refusal::ImageHeader
    } else {
        Refusal::ImageField(offset)
    }
}

// The lowest field at fault.
fn check_fields(edition: Known, f: &[u32; FIELDS]) -> Result<(), Refusal>
    ensures { result ≡ fields_answer (known_edition edition) f.now (field_count edition) 0 }
{
    for i in 0..table::fields_in(edition) {
        let r = table::row_at(edition, i as u16);
        if table::at_fault(r, f[SHIFT], f[i]) {
            return Err(refusal_at(r.offset));
        }
    }
    Ok(())
}

// 1, then 2; else the image in the first 420 bytes.
pub fn write_image(u: Vsu, out: &mut [u8]) -> Result<(), Refusal>
    ensures { (result ≡ (written_of u out.old).answer) × (out.new ≡ (written_of u out.old).out) × Tells result (image_answer u (length out.old)) }
{
    if !unit::in_range(u) {
        return Err(Refusal::State);
    }
    if out.len() < SIZE {
        return Err(Refusal::Room);
    }
    put_fields(out, &fields::fields_of(u));
    Ok(())
}

// Handed back: "a refused image the power-on state".
#[tactic(auto, unfolding(crate::specs::Image::loaded_by))]
fn refused(why: Refusal) -> Loaded
    ensures { result ≡ loaded_by (Err why) [] }
{
    Loaded {
        state: unit::new(),
        answer: Err(why),
    }
}

// 9, then 10, then 11; else the state.
pub fn read_image(b: &[u8]) -> Loaded
    ensures { (result ≡ read_of b.now) × Tells result.answer (read_answer b.now) }
{
    if b.len() != SIZE {
        return refused(Refusal::ImageSize);
    }
    let edition = edition_in(b);
    let f = take_fields(edition, b);
    match check_fields(edition, &f) {
        Err(why) => refused(why),
        Ok(()) => Loaded {
            state: fields::state_of(f),
            answer: Ok(()),
        },
    }
}
