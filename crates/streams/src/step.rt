// One extent of a stream.
ghost use Rattle.std.specs.Prelude.{◌≡◌, ◌-◌, ◌≤◌};
ghost use Rattle.extents.specs.Extents.{disk_of};
ghost use Rattle.streams.specs.Inner.{ready, wanted_of, next_pos, step_verdict};

use error::Refusal;
use extents::{blocks_in, counted_at, lies_at};
use obj::Reader;
use records::Extent;

// How many of the extent's bytes belong to the stream.
#[tactic(auto, unfolding(crate::specs::Inner::wanted_of))]
pub fn wanted(size: u64, e: Extent) -> u64
    ensures { result ≡ wanted_of size e }
{
    e.len.min(size.saturating_sub(e.logical))
}

// Where the stream goes on after the extent.
#[tactic(auto, unfolding(crate::specs::Inner::next_pos, crate::specs::Inner::wanted_of, error::specs::Answer::if_le))]
pub fn next_pos(size: u64, pos: u64, e: Extent) -> u64
    ensures { result ≡ next_pos size pos e }
{
    if size <= pos {
        return pos;
    }
    e.logical.min(size) + wanted(size, e)
}

// The first n bytes of the extent can be read; its end is tested also where none is wanted.
#[tactic(auto, using(extents::proofs::VerdictLaws::sums), unfolding(crate::specs::Inner::ready, error::specs::Answer::if_le, error::specs::Answer::if_eq))]
fn ready_at(image: &[u8], reader: Reader, e: Extent, n: u64) -> Result<(), Refusal>
    requires { n ≤ e.len }
    ensures { result ≡ ready (disk_of reader image.now) e n }
{
    if e.phys_block == 0 {
        return Ok(());
    }
    counted_at(reader, e)?;
    if n == 0 {
        return Ok(());
    }
    lies_at(
        image,
        reader,
        e.phys_block,
        e.phys_block + blocks_in(reader, n),
    )
}

// Whether the extent may follow what lies before pos.
#[tactic(auto, unfolding(crate::specs::Inner::step_verdict, crate::specs::Inner::wanted_of, error::specs::Answer::if_le))]
pub fn step_at(image: &[u8], reader: Reader, size: u64, pos: u64, e: Extent) -> Result<(), Refusal>
    ensures { result ≡ step_verdict (disk_of reader image.now) size pos e }
{
    if size <= pos {
        return Ok(());
    }
    if e.logical < pos {
        return Err(Refusal::Corrupt);
    }
    ready_at(image, reader, e, wanted(size, e))
}

// a less b, down to 0.
pub fn less(a: u64, b: u64) -> u64
    ensures { result ≡ a - b }
{
    a.saturating_sub(b)
}
