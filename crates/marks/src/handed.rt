// A bookmark that is handed in: its parts lie in its block and its block in the image, and nothing else is tested.
ghost use Rattle.std.specs.Prelude.{◌≡◌, ◌+◌, ◌*◌, leb, length};
ghost use Rattle.marks.specs.Mark.{value_fits, inside, handed_in};

use crate::mark::place_in;
use error::Refusal;
use node::{Place, held_value};
use obj::Reader;

// Whether a block lies wholly in an image of `len` bytes; blocks of no bytes lie in every image.
#[tactic(auto, using(crate::proofs::Fits::fits_empty, crate::proofs::Fits::fits_when))]
fn block_fits(size: u64, block: u64, len: u64) -> bool
    ensures { result ≡ leb ((block + 1) * size) len }
{
    size == 0 || block < len / size
}

#[tactic(auto, using(crate::proofs::Fits::part_missing, crate::proofs::Fits::part_in, crate::proofs::Fits::part_past))]
fn value_fits(size: u64, p: Place) -> Result<Place, Refusal>
    ensures { result ≡ value_fits size p }
{
    if held_value(p).is_some() && size < p.val_off as u64 + p.val_len as u64 {
        return Err(Refusal::Io);
    }
    Ok(p)
}

#[tactic(auto, using(crate::proofs::Fits::key_past, crate::proofs::Fits::key_in_lem))]
fn parts_fit(size: u64, p: Place) -> Result<Place, Refusal>
    ensures { result ≡ inside size p }
{
    if size < p.key_off as u64 + p.key_len as u64 {
        return Err(Refusal::Io);
    }
    value_fits(size, p)
}

#[tactic(auto, using(crate::proofs::Fits::length_other, crate::proofs::Fits::block_past, crate::proofs::Fits::block_in_lem))]
pub fn handed_in(reader: Reader, image: &[u8], mark: &[u8]) -> Result<Place, Refusal>
    ensures { result ≡ handed_in reader image.now mark.now }
{
    if mark.len() != 24 {
        return Err(Refusal::Io);
    }
    let p = place_in(mark);
    let size = reader.block_size as u64;
    if block_fits(size, p.block, image.len() as u64) {
        return parts_fit(size, p);
    }
    Err(Refusal::Io)
}
