// An opened volume (fs.rs, `Volume::open`).
#![tactic(auto)]

mod rule;

ghost use Rattle.std.specs.Prelude.{◌≡◌};
ghost use Rattle.volume.specs.Open.{volume_open, volume_of_image};
ghost use Rattle.volume.specs.Inner.{rooted_of, tree_of, through_map, map_first, tested_of};

use arith::tick;
use checkpoints::Choice;
use error::Refusal;
use lookup::{Counted, Map, Resolve, read_node, resolve_child};
use node::{Info, Node, info_of};
use nx::{Container, VolumeSuperblock, volume_superblock};
use obj::Reader;
pub use rule::{NameRule, hashed_keys, insensitive, name_rule};

// Which volume of a container, at which checkpoint.
#[derive(Clone, Copy)]
pub struct Which {
    pub checkpoint: Choice,
    pub index: u64,
}

#[derive(Clone, Copy)]
pub struct Volume {
    pub reader: Reader,
    pub sb: VolumeSuperblock,
    pub map: Map,
    pub root: Node,
    pub info: Info,
}

// The volume whose tree has a root that was read.
fn with_root(
    image: &[u8],
    reader: Reader,
    sb: VolumeSuperblock,
    map: Map,
    root: Node,
    nodes: u64,
) -> Counted<Volume>
    ensures { result ≡ rooted_of image.now reader sb map root nodes }
{
    match info_of(reader.block(image, root.block), root) {
        Ok(info) => Counted {
            answer: Ok(Volume {
                reader: reader,
                sb: sb,
                map: map,
                root: root,
                info: info,
            }),
            nodes: nodes,
        },
        Err(e) => Counted {
            answer: Err(e),
            nodes: nodes,
        },
    }
}

fn with_address(
    image: &[u8],
    reader: Reader,
    sb: VolumeSuperblock,
    map: Map,
    paddr: u64,
    nodes: u64,
) -> Counted<Volume>
    ensures { result ≡ tree_of image.now reader sb map paddr nodes }
{
    match read_node(reader, image, paddr) {
        Ok(root) => with_root(image, reader, sb, map, root, tick(nodes)),
        Err(e) => Counted {
            answer: Err(e),
            nodes: nodes,
        },
    }
}

// The root goes through the volume's own map.
fn with_map(
    image: &[u8],
    reader: Reader,
    sb: VolumeSuperblock,
    map: Map,
    nodes: u64,
) -> Counted<Volume>
    ensures { result ≡ through_map image.now reader sb map nodes }
{
    let found = resolve_child(reader, image, Resolve::Mapped(map), sb.root_tree_oid, nodes);
    let paddr = found.answer;
    match paddr {
        Ok(p) => with_address(image, reader, sb, map, p, found.nodes),
        Err(e) => Counted {
            answer: Err(e),
            nodes: found.nodes,
        },
    }
}

fn with_superblock(
    image: &[u8],
    reader: Reader,
    sb: VolumeSuperblock,
    xid: u64,
    nodes: u64,
) -> Counted<Volume>
    ensures { result ≡ map_first image.now reader sb xid nodes }
{
    let loaded = omap::load(reader, image, sb.omap_oid, xid, nodes);
    let map = loaded.answer;
    match map {
        Ok(m) => with_map(image, reader, sb, m, loaded.nodes),
        Err(e) => Counted {
            answer: Err(e),
            nodes: loaded.nodes,
        },
    }
}

// Encrypted and sealed volumes are refused.
fn open_of(
    image: &[u8],
    reader: Reader,
    sb: VolumeSuperblock,
    xid: u64,
    nodes: u64,
) -> Counted<Volume>
    ensures { result ≡ tested_of image.now reader sb xid nodes }
{
    if sb.fs_flags % 2 == 0 {
        return Counted {
            answer: Err(Refusal::Unsupported),
            nodes: nodes,
        };
    }
    if sb.incompat / 32 % 2 == 1 {
        return Counted {
            answer: Err(Refusal::Unsupported),
            nodes: nodes,
        };
    }
    with_superblock(image, reader, sb, xid, nodes)
}

// The volume at an index of a container.
pub fn open_volume(image: &[u8], c: Container, index: u64, nodes: u64) -> Counted<Volume>
    ensures { result ≡ volume_open image.now c index nodes }
{
    let found = volume_superblock(image, c, index, nodes);
    let volume = found.answer;
    match volume {
        Ok(sb) => {
            let reader = c.reader;
            let container = c.sb;
            open_of(image, reader, sb, container.xid, found.nodes)
        }
        Err(e) => Counted {
            answer: Err(e),
            nodes: found.nodes,
        },
    }
}

// A volume of an image.
pub fn open_at(image: &[u8], which: Which) -> Counted<Volume>
    ensures { result ≡ volume_of_image image.now which }
{
    let checkpoint = which.checkpoint;
    let opened = nx::open(image, checkpoint);
    let container = opened.answer;
    match container {
        Ok(c) => open_volume(image, c, which.index, opened.nodes),
        Err(e) => Counted {
            answer: Err(e),
            nodes: opened.nodes,
        },
    }
}
