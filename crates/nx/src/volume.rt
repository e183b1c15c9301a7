// The superblock of a volume (`apfs_superblock_t`), found through the container's object map.
ghost use Rattle.std.specs.Prelude.{◌≡◌};
ghost use Rattle.nx.specs.Volume.{fields_in, volume_in, volume_block, mapped_volume, volume_superblock};

use crate::container::Container;
use crate::slots::volume_oid;
use byte_fields::{part, u32_at, u64_at};
use error::Refusal;
use lookup::{Counted, look_up};
use obj::Reader;

#[derive(Clone, Copy)]
pub struct VolumeSuperblock {
    pub block: u64,
    pub incompat: u64,
    pub omap_oid: u64,
    pub root_tree_oid: u64,
    pub fs_flags: u64,
}

#[tactic(auto, unfolding(crate::specs::Volume::fields_in, error::specs::Answer::if_le, error::specs::Answer::if_eq))]
fn fields_in(b: &[u8], block: u64) -> Result<VolumeSuperblock, Refusal>
    ensures { result ≡ fields_in b.now block }
{
    let incompat = u64_at(b, 56)?;
    let omap_oid = u64_at(b, 128)?;
    let root_tree_oid = u64_at(b, 136)?;
    let fs_flags = u64_at(b, 264)?;
    Ok(VolumeSuperblock {
        block: block,
        incompat: incompat,
        omap_oid: omap_oid,
        root_tree_oid: root_tree_oid,
        fs_flags: fs_flags,
    })
}

#[tactic(auto, unfolding(crate::specs::Volume::volume_in, error::specs::Answer::if_le, error::specs::Answer::if_eq))]
fn volume_in(b: &[u8], block: u64) -> Result<VolumeSuperblock, Refusal>
    ensures { result ≡ volume_in b.now block }
{
    let h = obj::parse(b)?;
    if h.obj_type % 65536 != 13 {
        return Err(Refusal::Corrupt);
    }
    let magic = u32_at(b, 32)?;
    if magic != 0x42535041 {
        return Err(Refusal::Corrupt);
    }
    fields_in(b, block)
}

#[tactic(auto, unfolding(crate::specs::Volume::volume_block, error::specs::Answer::if_le, error::specs::Answer::if_eq))]
fn volume_block(reader: Reader, image: &[u8], paddr: u64) -> Result<VolumeSuperblock, Refusal>
    ensures { result ≡ volume_block reader image.now paddr }
{
    let s = reader.read_object(image, paddr)?;
    volume_in(part(image, s), paddr)
}

// A volume's superblock by its object id.
#[tactic(auto, unfolding(crate::specs::Volume::mapped_volume))]
fn mapped_volume(image: &[u8], c: Container, oid: u64, nodes: u64) -> Counted<VolumeSuperblock>
    ensures { result ≡ mapped_volume image.now c oid nodes }
{
    let reader = c.reader;
    let map = c.map;
    let looked = look_up(reader, image, map, oid, nodes);
    let mapping = looked.answer;
    match mapping {
        Ok(Some(v)) => Counted {
            answer: volume_block(reader, image, v.paddr),
            nodes: looked.nodes,
        },
        Ok(None) => Counted {
            answer: Err(Refusal::Corrupt),
            nodes: looked.nodes,
        },
        Err(e) => Counted {
            answer: Err(e),
            nodes: looked.nodes,
        },
    }
}

// A volume's superblock by its index in container order.
pub fn volume_superblock(
    image: &[u8],
    c: Container,
    index: u64,
    nodes: u64,
) -> Counted<VolumeSuperblock>
    ensures { result ≡ volume_superblock image.now c index nodes }
{
    let sb = c.sb;
    match volume_oid(image, sb, index) {
        Ok(oid) => mapped_volume(image, c, oid, nodes),
        Err(e) => Counted {
            answer: Err(e),
            nodes: nodes,
        },
    }
}
