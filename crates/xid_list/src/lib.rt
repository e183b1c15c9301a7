// The transaction numbers of the accepted checkpoints, into a buffer that the caller lends: document 02, request 04.
#![tactic(auto)]

mod insert;
mod ring;

ghost use Rattle.std.specs.Prelude.{◌≡◌, ◌+◌, ◌*◌, ◌^◌, ◌≤◌, ◌<◌, length};
ghost use Rattle.checkpoints.specs.Numbers.{numbers_in, descending, some_numbers, numbers_of, numbers_at};
ghost use Rattle.calls.specs.Filled.{filled_at};
ghost use Rattle.xid_list.specs.Listed.{xids_by};

use crate::ring::{count_accepted, write_accepted};
use error::Refusal;
use geometry::{Geometry, area_at, geometry_at};
use obj::Reader;

// Where there is room for all of them.
#[tactic(auto, using(crate::proofs::Lists::listed_none, crate::proofs::Lists::listed_some))]
fn list_fitting(
    reader: Reader,
    image: &[u8],
    start: u64,
    ring: u32,
    out: &mut [u8],
) -> Result<usize, Refusal>
    requires { (start + ring * reader.block_size < 2 ^ 64) × (8 * length (numbers_in reader image.now start ring ring 0) ≤ length out.old) }
    ensures { filled_at result out.new ≡ xids_by (some_numbers (descending (numbers_in reader image.now start ring ring 0))) out.old }
{
    let n = write_accepted(reader, image, start, ring, out);
    if n == 0 {
        return Err(Refusal::Corrupt);
    }
    Ok(n)
}

// Counted first, unless there is room for every block: a buffer that is too short is left as it was.
#[tactic(auto, using(crate::proofs::Lists::listed_short, crate::proofs::Lists::room_for_ring, crate::proofs::Lists::room_for_count, crate::proofs::Rings::most))]
fn list_ring(
    reader: Reader,
    image: &[u8],
    start: u64,
    ring: u32,
    out: &mut [u8],
) -> Result<usize, Refusal>
    requires { start + ring * reader.block_size < 2 ^ 64 }
    ensures { filled_at result out.new ≡ xids_by (some_numbers (descending (numbers_in reader image.now start ring ring 0))) out.old }
{
    let room = out.len() / 8;
    if ring as usize <= room {
        return list_fitting(reader, image, start, ring, out);
    }
    if room < count_accepted(reader, image, start, ring) {
        return Err(Refusal::BufferTooShort);
    }
    list_fitting(reader, image, start, ring, out)
}

#[tactic(auto, using(geometry::proofs::Area::area_fits), unfolding(checkpoints::specs::Numbers::numbers_of, error::specs::Answer::if_le, error::specs::Answer::if_eq))]
fn list_area(image: &[u8], g: Geometry, out: &mut [u8]) -> Result<usize, Refusal>
    ensures { filled_at result out.new ≡ xids_by (numbers_of image.now g) out.old }
{
    let start = area_at(image.len(), g)?;
    list_ring(g.reader, image, start, g.ring, out)
}

#[tactic(auto, unfolding(checkpoints::specs::Numbers::numbers_at, error::specs::Answer::if_le, error::specs::Answer::if_eq))]
pub fn list_xids(image: &[u8], out: &mut [u8]) -> Result<usize, Refusal>
    ensures { filled_at result out.new ≡ xids_by (numbers_at image.now) out.old }
{
    if 17179869184 < image.len() {
        return Err(Refusal::ImageTooLarge);
    }
    let g = geometry_at(image)?;
    list_area(image, g, out)
}
