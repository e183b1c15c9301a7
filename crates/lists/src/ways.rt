// The lists of an id on the way down to its inode: its records stand one after the other in the tree.
ghost use Rattle.std.specs.Prelude.{◌≡◌};
ghost use Rattle.btree.specs.Scan.{scan_of};
ghost use Rattle.cursor.specs.Left.{Begins};
ghost use Rattle.cursor.specs.Way.{Leads};
ghost use Rattle.lists.specs.Lists.{search_of, inode_of};

use crate::tree::search;
use btree::{InLeaf, next_in};
use cursor::{Step, Way, begin, in_leaf, resume, way_down};
use error::Refusal;
use inode_record::{Inode, inode_at};
use lookup::Counted;
use volume::Volume;

pub fn inode_way(image: &[u8], v: Volume, id: u64, nodes: u64) -> Way
    ensures { Leads image.now (search_of v id 3) nodes result }
{
    way_down(image, search(v, id, 3), nodes)
}

// The first inode record of an id, where its search begins.
fn inode_begun(image: &[u8], v: Volume, id: u64, w: Way, nodes: u64) -> Counted<Inode>
    requires { Leads image.now (search_of v id 3) nodes w }
    ensures { result ≡ inode_of image.now v id nodes }
{
    let reader = v.reader;
    let q = search(v, id, 3);
    let s = begin(image, q, w, nodes);
    let reached = s.reached;
    match in_leaf(image, q.keys, reached, s.from) {
        InLeaf::At(p, _) => Counted {
            answer: inode_at(reader, image, p, id),
            nodes: s.nodes,
        },
        InLeaf::Passed => Counted {
            answer: Err(Refusal::NotFound),
            nodes: s.nodes,
        },
        InLeaf::End => Counted {
            answer: Err(Refusal::NotFound),
            nodes: s.nodes,
        },
        InLeaf::No(e) => Counted {
            answer: Err(e),
            nodes: s.nodes,
        },
    }
}

// The first inode record of an id: mostly it stands where the way leads to.
pub fn inode_on(image: &[u8], v: Volume, id: u64, w: Way, nodes: u64) -> Counted<Inode>
    requires { Leads image.now (search_of v id 3) nodes w }
    ensures { result ≡ inode_of image.now v id nodes }
{
    let reader = v.reader;
    let q = search(v, id, 3);
    let root = q.root;
    let node = w.node;
    if root.level <= 32 {
        if node.flags / 2 % 2 == 1 {
            if let InLeaf::At(p, _) = next_in(image, q.keys, node, w.from) {
                return Counted {
                    answer: inode_at(reader, image, p, id),
                    nodes: w.nodes,
                };
            }
        }
    }
    inode_begun(image, v, id, w, nodes)
}

// Where an id's records of a kind begin.
pub fn list_on(image: &[u8], v: Volume, id: u64, kind: u8, w: Way, nodes: u64) -> Step
    requires { Leads image.now (search_of v id 3) nodes w }
    ensures { Begins image.now (search_of v id kind) result (scan_of image.now (search_of v id kind) nodes) }
{
    resume(image, search(v, id, 3), kind, w, nodes)
}
