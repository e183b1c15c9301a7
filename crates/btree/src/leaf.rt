// The records of a leaf, one after the other.
ghost use Rattle.std.specs.Prelude.{◌≡◌, ◌-◌, ◌<◌, ◌^◌, length};
ghost use Rattle.btree.specs.Inner.{in_leaf, in_keyed};

use crate::entries::{Item, Keys, item_in};
use error::Refusal;
use node::{Info, Node, Place};

// A record and the entry after it; or the leaf is passed without one, or the scan ends in it.
#[derive(Clone, Copy)]
pub enum InLeaf {
    At(Place, u32),
    Passed,
    End,
    No(Refusal),
}

// The first record of a leaf in the block b, from an entry on.
pub fn in_leaf(b: &[u8], node: Node, info: Info, id: u64, kind: u8, from: u32) -> InLeaf
    requires { length b.now < 2 ^ 32 }
    ensures { result ≡ in_leaf b.now node info id kind (node.nkeys - from) from }
{
    let mut i = from;
    while i < node.nkeys {
        match item_in(b, node, info, id, kind, i) {
            Item::Pass => {
                i += 1;
            }
            Item::Stop => return InLeaf::End,
            Item::At(p) => return InLeaf::At(p, i + 1),
            Item::No(e) => return InLeaf::No(e),
        }
    }
    InLeaf::Passed
}

// The same of a leaf of the image.
pub fn next_in(image: &[u8], k: Keys, node: Node, from: u32) -> InLeaf
    ensures { result ≡ in_keyed image.now k node from }
{
    in_leaf(
        k.reader.block(image, node.block),
        node,
        k.info,
        k.id,
        k.kind,
        from,
    )
}
