// Object maps (`omap_phys_t`): a map is loaded from its object; its mappings are looked up by `lookup::look_up` (omap.rs).
#![tactic(auto)]

ghost use Rattle.std.specs.Prelude.{◌≡◌};
ghost use Rattle.omap.specs.Load.{tree_in, tree_at, physical, layout_of, map_of, map_at};

use arith::tick;
use byte_fields::{part, u32_at, u64_at};
use error::Refusal;
use lookup::{Counted, Map, read_node};
use node::{Info, Node, info_of};
use obj::Reader;

// The address of the tree's root, in the bytes of a map's object.
#[tactic(auto, unfolding(crate::specs::Load::tree_in, error::specs::Answer::if_le, error::specs::Answer::if_eq))]
fn tree_in(b: &[u8]) -> Result<u64, Refusal>
    ensures { result ≡ tree_in b.now }
{
    let h = obj::parse(b)?;
    if h.obj_type % 65536 != 11 {
        return Err(Refusal::Corrupt);
    }
    let kind = u32_at(b, 40)?;
    if kind / 1073741824 != 1 {
        return Err(Refusal::Unsupported);
    }
    u64_at(b, 48)
}

#[tactic(auto, unfolding(crate::specs::Load::tree_at, error::specs::Answer::if_le, error::specs::Answer::if_eq))]
fn tree_at(reader: Reader, image: &[u8], paddr: u64) -> Result<u64, Refusal>
    ensures { result ≡ tree_at reader image.now paddr }
{
    let s = reader.read_object(image, paddr)?;
    tree_in(part(image, s))
}

// A map's tree is physical, with keys and values of 16 bytes.
fn physical_info(info: Info) -> Result<Info, Refusal>
    ensures { result ≡ physical info }
{
    if info.flags / 16 % 2 == 0 {
        return Err(Refusal::Corrupt);
    }
    if info.key_size != 16 {
        return Err(Refusal::Corrupt);
    }
    if info.val_size != 16 {
        return Err(Refusal::Corrupt);
    }
    Ok(info)
}

#[tactic(auto, unfolding(crate::specs::Load::layout_of, error::specs::Answer::if_le, error::specs::Answer::if_eq))]
fn layout_of(reader: Reader, image: &[u8], root: Node) -> Result<Info, Refusal>
    ensures { result ≡ layout_of reader image.now root }
{
    let info = info_of(reader.block(image, root.block), root)?;
    physical_info(info)
}

// The map of a tree's root.
fn with_root(reader: Reader, image: &[u8], root: Node, xid: u64, nodes: u64) -> Counted<Map>
    ensures { result ≡ map_of reader image.now root xid nodes }
{
    match layout_of(reader, image, root) {
        Ok(info) => Counted {
            answer: Ok(Map {
                root: root,
                info: info,
                xid: xid,
            }),
            nodes: nodes,
        },
        Err(e) => Counted {
            answer: Err(e),
            nodes: nodes,
        },
    }
}

// The map whose object lies at an address, as of a transaction.
pub fn load(reader: Reader, image: &[u8], paddr: u64, xid: u64, nodes: u64) -> Counted<Map>
    ensures { result ≡ map_at reader image.now paddr xid nodes }
{
    match tree_at(reader, image, paddr) {
        Ok(tree) => match read_node(reader, image, tree) {
            Ok(root) => {
                let counted = tick(nodes);
                with_root(reader, image, root, xid, counted)
            }
            Err(e) => Counted {
                answer: Err(e),
                nodes: nodes,
            },
        },
        Err(e) => Counted {
            answer: Err(e),
            nodes: nodes,
        },
    }
}
