// The leaves of a scan, and the records of a leaf, one after the other.
ghost use Rattle.std.specs.Prelude.{◌≡◌};
ghost use Rattle.btree.specs.Scan.{scan_of};
ghost use Rattle.cursor.specs.Left.{left, in_reached, Begins};
ghost use Rattle.cursor.specs.Inner.{in_whole};

use crate::path::{Path, mark_of, node_on, none_left, top_of};
use crate::walk::{InPart, PartStep, part_step, walk_from};
use arith::tick;
use btree::{InLeaf, Keys, Search, next_in};
use error::Refusal;
use node::Node;

// A leaf that the scan has come to, or how the scan ended.
#[derive(Clone, Copy)]
pub enum Reached {
    Leaf(Node),
    End,
    No(Refusal),
}

// A leaf, its level and the entry of its first record, what is left above it, and the nodes gone through.
#[derive(Clone, Copy)]
pub struct Step {
    pub reached: Reached,
    pub from: u32,
    pub level: u16,
    pub path: Path,
    pub nodes: u64,
}

// The first record of a leaf from an entry on.
pub fn in_leaf(image: &[u8], k: Keys, reached: Reached, from: u32) -> InLeaf
    ensures { result ≡ in_reached image.now k reached from }
{
    match reached {
        Reached::Leaf(m) => next_in(image, k, m, from),
        Reached::End => InLeaf::End,
        Reached::No(e) => InLeaf::No(e),
    }
}

// Where all of the tree is passed, the scan ends.
fn in_whole(found: InPart) -> Reached
    ensures { result ≡ in_whole found }
{
    match found {
        InPart::At(m) => Reached::Leaf(m),
        InPart::Passed => Reached::End,
        InPart::End => Reached::End,
        InPart::No(e) => Reached::No(e),
    }
}

pub fn whole(s: PartStep) -> Step
    ensures { result ≡ record { reached = in_whole s.found; from = s.from; level = s.level; path = s.path; nodes = s.nodes } }
{
    let found = s.found;
    let path = s.path;
    Step {
        reached: in_whole(found),
        from: s.from,
        level: s.level,
        path: path,
        nodes: s.nodes,
    }
}

// The first leaf of a scan.
pub fn first(image: &[u8], q: Search, nodes: u64) -> Step
    ensures { Begins image.now q result (scan_of image.now q nodes) }
{
    let root = q.root;
    let c = none_left();
    if 32 < root.level {
        return whole(part_step(InPart::No(Refusal::Corrupt), 0, 0, c, nodes));
    }
    let counted = tick(nodes);
    whole(walk_from(image, q, root.level, root, 0, c, counted))
}

// The leaf after one of a level that is passed.
pub fn next(image: &[u8], q: Search, c: Path, level: u16, nodes: u64) -> Step
    ensures { Begins image.now q result (left image.now q c level nodes) }
{
    let top = top_of(q);
    let mut l = level;
    let mut n = nodes;
    while l < top {
        l += 1;
        let k = mark_of(c, l);
        match node_on(image, q, l, k.block) {
            Err(e) => return whole(part_step(InPart::No(e), 0, l, c, n)),
            Ok(m) => {
                let s = walk_from(image, q, l, m, k.next, c, n);
                let found = s.found;
                match found {
                    InPart::At(_) => return whole(s),
                    InPart::Passed => {
                        n = s.nodes;
                    }
                    InPart::End => return whole(s),
                    InPart::No(_) => return whole(s),
                }
            }
        }
    }
    whole(part_step(InPart::Passed, 0, l, c, n))
}
