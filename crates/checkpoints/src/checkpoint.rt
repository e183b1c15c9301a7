// The latest checkpoint of a container.
ghost use Rattle.std.specs.Prelude.{◌≡◌, ◌+◌, ◌*◌, ◌^◌, ◌<◌};
ghost use Rattle.checkpoints.specs.Checkpoint.{accepted_at, prefer, latest_in, checkpoint_of};
ghost use Rattle.checkpoints.specs.Inner.{Older};

use crate::accepted::{accepted_at, block_place};
use crate::superblock::Superblock;
use byte_fields::{Span, part, u64_at};
use error::Refusal;
use geometry::{Geometry, area_at};
use obj::Reader;

// Whether the block's transaction number is below that of a checkpoint that was taken already.
fn is_older(b: &[u8], best: Option<Superblock>) -> bool
    ensures { Older b.now (best) result }
{
    match best {
        Some(sb) => match u64_at(b, 16) {
            Ok(xid) => xid < sb.xid,
            Err(_) => false,
        },
        None => false,
    }
}

// The better of a block and what was taken of the blocks after it.
fn consider(
    reader: Reader,
    image: &[u8],
    place: Span,
    ring: u32,
    best: Option<Superblock>,
) -> Option<Superblock>
    ensures { result ≡ prefer (accepted_at reader image.now ring place) (best) }
{
    if is_older(part(image, place), best) {
        return best;
    }
    match accepted_at(reader, image, place, ring) {
        Some(own) => match best {
            Some(other) => {
                if other.xid <= own.xid {
                    return Some(own);
                }
                Some(other)
            }
            None => Some(own),
        },
        None => best,
    }
}

// The earliest block of the greatest transaction number among the accepted ones of a ring that starts at a byte of the image.
// The ring is gone through backwards: a block older than what was taken is passed over before its checksum is looked at.
fn latest_checkpoint(reader: Reader, image: &[u8], start: u64, ring: u32) -> Option<Superblock>
    requires { start + ring * reader.block_size < 2 ^ 64 }
    ensures { result ≡ latest_in reader image.now start ring ring 0 }
{
    let mut best = None;
    let mut i = ring;
    while 0 < i {
        i -= 1;
        best = consider(
            reader,
            image,
            block_place(reader, start, ring, i),
            ring,
            best,
        );
    }
    best
}

// The checkpoint of a container whose block 0 gives g.
#[tactic(auto, using(geometry::proofs::Area::area_fits), unfolding(crate::specs::Checkpoint::checkpoint_of, error::specs::Answer::if_le, error::specs::Answer::if_eq))]
pub fn checkpoint_of(image: &[u8], g: Geometry) -> Result<Superblock, Refusal>
    ensures { result ≡ checkpoint_of image.now g }
{
    let start = area_at(image.len(), g)?;
    match latest_checkpoint(g.reader, image, start, g.ring) {
        Some(sb) => Ok(sb),
        None => Err(Refusal::Corrupt),
    }
}
