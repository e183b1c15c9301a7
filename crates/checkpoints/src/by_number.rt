// An earlier checkpoint, by its transaction number: document 02, request 04.
ghost use Rattle.std.specs.Prelude.{◌≡◌, ◌+◌, ◌*◌, ◌^◌, ◌<◌};
ghost use Rattle.byte_fields.specs.Number.{number_at};
ghost use Rattle.checkpoints.specs.Checkpoint.{accepted_at};
ghost use Rattle.checkpoints.specs.Numbers.{of_number, numbered_in, numbered_of, checkpoint_by};
ghost use Rattle.checkpoints.specs.Inner.{is_number};

use crate::accepted::{accepted_at, block_place};
use crate::checkpoint::checkpoint_of;
use crate::superblock::Superblock;
use byte_fields::{Span, part, u64_at};
use error::Refusal;
use geometry::{Geometry, area_at};
use obj::Reader;

// Which checkpoint a container is opened at.
#[derive(Clone, Copy)]
pub enum Choice {
    Latest,
    Number(u64),
}

fn has_number(b: &[u8], xid: u64) -> bool
    ensures { result ≡ is_number (number_at 8 b.now 16) xid }
{
    match u64_at(b, 16) {
        Ok(x) => x == xid,
        Err(_) => false,
    }
}

// A block of another number is passed over before its checksum is looked at.
fn numbered_at(reader: Reader, image: &[u8], place: Span, ring: u32, xid: u64) -> Option<Superblock>
    ensures { result ≡ of_number xid (accepted_at reader image.now ring place) }
{
    if has_number(part(image, place), xid) {
        return accepted_at(reader, image, place, ring);
    }
    None
}

// The earliest accepted block of a number on a ring that starts at a byte of the image.
fn numbered_checkpoint(
    reader: Reader,
    image: &[u8],
    start: u64,
    ring: u32,
    xid: u64,
) -> Option<Superblock>
    requires { start + ring * reader.block_size < 2 ^ 64 }
    ensures { result ≡ numbered_in reader image.now start ring xid ring 0 }
{
    let mut i: u32 = 0;
    while i < ring {
        match numbered_at(
            reader,
            image,
            block_place(reader, start, ring, i),
            ring,
            xid,
        ) {
            Some(sb) => return Some(sb),
            None => {}
        }
        i += 1;
    }
    None
}

#[tactic(auto, using(geometry::proofs::Area::area_fits), unfolding(crate::specs::Numbers::numbered_of, error::specs::Answer::if_le, error::specs::Answer::if_eq))]
fn numbered_of(image: &[u8], g: Geometry, xid: u64) -> Result<Superblock, Refusal>
    ensures { result ≡ numbered_of xid image.now g }
{
    let start = area_at(image.len(), g)?;
    match numbered_checkpoint(g.reader, image, start, g.ring, xid) {
        Some(sb) => Ok(sb),
        None => Err(Refusal::NoCheckpoint),
    }
}

// The checkpoint that is chosen, of a container whose block 0 gives g.
pub fn checkpoint_by(image: &[u8], g: Geometry, choice: Choice) -> Result<Superblock, Refusal>
    ensures { result ≡ checkpoint_by choice image.now g }
{
    match choice {
        Choice::Latest => checkpoint_of(image, g),
        Choice::Number(xid) => numbered_of(image, g, xid),
    }
}
