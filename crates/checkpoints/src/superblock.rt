// The fields of a superblock that opening reads.
ghost use Rattle.std.specs.Prelude.{◌≡◌};
ghost use Rattle.checkpoints.specs.Superblock.{descriptors_at, superblock_at};

use byte_fields::{Span, u32_at, u64_at};
use error::Refusal;

// Where a checkpoint says that its own descriptor blocks lie. The ring that they lie on has the length that block 0 gives, whatever `blocks` is.
#[derive(Clone, Copy)]
pub struct Descriptors {
    pub blocks: u32,
    pub base: u64,
    pub index: u32,
    pub len: u32,
}

#[derive(Clone, Copy)]
pub struct Superblock {
    pub place: Span,
    pub xid: u64,
    pub incompat: u64,
    pub omap_oid: u64,
    pub max_volumes: u32,
    pub descriptors: Descriptors,
}

#[tactic(auto, unfolding(crate::specs::Superblock::descriptors_at))]
fn descriptors_at(b: &[u8]) -> Option<Descriptors>
    ensures { result ≡ descriptors_at b.now }
{
    let blocks = u32_at(b, 104).ok()?;
    let base = u64_at(b, 112).ok()?;
    let index = u32_at(b, 136).ok()?;
    let len = u32_at(b, 140).ok()?;
    Some(Descriptors {
        blocks: blocks,
        base: base,
        index: index,
        len: len,
    })
}

// The superblock in the bytes of a block that lies at a place of the image.
#[tactic(auto, unfolding(crate::specs::Superblock::superblock_at))]
pub fn superblock_at(b: &[u8], place: Span) -> Option<Superblock>
    ensures { result ≡ superblock_at b.now place }
{
    let xid = u64_at(b, 16).ok()?;
    let incompat = u64_at(b, 64).ok()?;
    let omap_oid = u64_at(b, 160).ok()?;
    let max_volumes = u32_at(b, 180).ok()?;
    let descriptors = descriptors_at(b)?;
    Some(Superblock {
        place: place,
        xid: xid,
        incompat: incompat,
        omap_oid: omap_oid,
        max_volumes: max_volumes,
        descriptors: descriptors,
    })
}
