// A block of the descriptor area as a checkpoint's superblock.
ghost use Rattle.std.specs.Prelude.{◌≡◌, ◌+◌, ◌*◌, ◌^◌, ◌<◌};
ghost use Rattle.checkpoints.specs.Checkpoint.{marked_of, candidate_of, accepted_at, block_place};

use crate::maps::maps_fit;
use crate::superblock::{Superblock, superblock_at};
use byte_fields::{Span, part};
use geometry::has_magic;
use obj::Reader;

// The superblock of a block whose kind and magic say so, if its checksum is valid.
#[tactic(auto, unfolding(crate::specs::Checkpoint::marked_of, error::specs::Answer::if_le, error::specs::Answer::if_eq))]
fn marked(b: &[u8], place: Span) -> Option<Superblock>
    ensures { result ≡ marked_of b.now place }
{
    if has_magic(b) {
        if checksum::verify(b) {
            return superblock_at(b, place);
        }
        return None;
    }
    None
}

#[tactic(auto, unfolding(crate::specs::Checkpoint::candidate_of, error::specs::Answer::if_le, error::specs::Answer::if_eq))]
fn candidate(b: &[u8], place: Span) -> Option<Superblock>
    ensures { result ≡ candidate_of b.now place }
{
    let h = obj::parse(b).ok()?;
    if h.kind() != 1 {
        return None;
    }
    marked(b, place)
}

// The superblock at a place, if it is a candidate whose maps are accepted.
#[tactic(auto, unfolding(crate::specs::Checkpoint::accepted_at, error::specs::Answer::if_le, error::specs::Answer::if_eq))]
pub fn accepted_at(reader: Reader, image: &[u8], place: Span, ring: u32) -> Option<Superblock>
    ensures { result ≡ accepted_at reader image.now ring place }
{
    let sb = candidate(part(image, place), place)?;
    if maps_fit(reader, image, sb.descriptors, sb.xid, ring) {
        return Some(sb);
    }
    None
}

// Where the i-th block of a ring lies that starts at a byte of the image.
pub fn block_place(reader: Reader, start: u64, ring: u32, i: u32) -> Span
    requires { (start + ring * reader.block_size < 2 ^ 64) × (i < ring) }
    ensures { result ≡ block_place reader start i }
{
    let size = reader.block_size as usize;
    Span {
        start: start as usize + (i as usize) * size,
        len: size,
    }
}

pub fn accepted_block(
    reader: Reader,
    image: &[u8],
    start: u64,
    ring: u32,
    i: u32,
) -> Option<Superblock>
    requires { (start + ring * reader.block_size < 2 ^ 64) × (i < ring) }
    ensures { result ≡ accepted_at reader image.now ring (block_place reader start i) }
{
    accepted_at(reader, image, block_place(reader, start, ring, i), ring)
}
