// The next leaf that has a record, or ends the scan, in a part of the tree.
ghost use Rattle.std.specs.Prelude.{◌≡◌, ◌-◌, ◌≤◌};
ghost use Rattle.error.specs.Answer.{Ok};
ghost use Rattle.node.specs.Node.{leaf_bit};
ghost use Rattle.lookup.specs.Read.{node_at};
ghost use Rattle.btree.specs.Inner.{leaf_from, walk, child};
ghost use Rattle.cursor.specs.Left.{top_of, left};
ghost use Rattle.cursor.specs.Inner.{Known, onward, Makes};

use crate::path::{Mark, Path, put};
use btree::{InLeaf, Search, Turn, next_child, next_in};
use error::Refusal;
use node::Node;

// Passed: no leaf of the part has a record.
#[derive(Clone, Copy)]
pub enum InPart {
    At(Node),
    Passed,
    End,
    No(Refusal),
}

// A leaf, its level and the entry of its first record, what is left above it, and the nodes gone through.
#[derive(Clone, Copy)]
pub struct PartStep {
    pub found: InPart,
    pub from: u32,
    pub level: u16,
    pub path: Path,
    pub nodes: u64,
}

pub fn part_step(found: InPart, from: u32, level: u16, path: Path, nodes: u64) -> PartStep
    ensures { result ≡ record { found = found; from = from; level = level; path = path; nodes = nodes } }
{
    PartStep {
        found: found,
        from: from,
        level: level,
        path: path,
        nodes: nodes,
    }
}

// The first record of a leaf from an entry on.
fn leaf_from(
    image: &[u8],
    q: Search,
    level: u16,
    node: Node,
    from: u32,
    c: Path,
    nodes: u64,
) -> PartStep
    ensures { Makes image.now q result (left image.now q c level) (leaf_from image.now q node (node.nkeys - from) from nodes (left image.now q c level nodes)) }
{
    match next_in(image, q.keys, node, from) {
        InLeaf::At(_, after) => part_step(InPart::At(node), after - 1, level, c, nodes),
        InLeaf::Passed => part_step(InPart::Passed, from, level, c, nodes),
        InLeaf::End => part_step(InPart::End, from, level, c, nodes),
        InLeaf::No(e) => part_step(InPart::No(e), from, level, c, nodes),
    }
}

// The first record from an entry of a node on; c has what is left above.
#[cycle(descend_walk_from)]
pub fn walk_from(
    image: &[u8],
    q: Search,
    level: u16,
    node: Node,
    from: u32,
    c: Path,
    nodes: u64,
) -> PartStep
    requires { (level ≤ top_of q) × Known image.now q level node }
    ensures { Makes image.now q result (left image.now q c level) (walk image.now q level node from (left image.now q c level) nodes) }
{
    if node.flags / 2 % 2 == 1 {
        return leaf_from(image, q, level, node, from, c, nodes);
    }
    let mut i = from;
    let mut n = nodes;
    loop {
        let t = next_child(image, q, node, i, n);
        let turn = t.turn;
        n = t.nodes;
        match turn {
            Turn::Over => return part_step(InPart::Passed, from, level, c, n),
            Turn::Stop => return part_step(InPart::End, from, level, c, n),
            Turn::No(e) => return part_step(InPart::No(e), from, level, c, n),
            Turn::Into(m) => {
                i = t.next;
                let s = descend(image, q, level, node, i, m, c, n);
                let found = s.found;
                match found {
                    InPart::At(_) => return s,
                    InPart::Passed => {
                        n = s.nodes;
                    }
                    InPart::End => return s,
                    InPart::No(_) => return s,
                }
            }
        }
    }
}

// The same of a child m of a node; the node goes on at next.
#[cycle(descend_walk_from)]
fn descend(
    image: &[u8],
    q: Search,
    level: u16,
    node: Node,
    next: u32,
    m: Node,
    c: Path,
    nodes: u64,
) -> PartStep
    requires { (level ≤ top_of q) × Known image.now q level node × (leaf_bit node.flags ≡ 1 → ⊥) × (node_at q.keys.reader image.now m.block ≡ Ok m) }
    ensures { Makes image.now q result (onward image.now q level node next c) (child image.now q level m (onward image.now q level node next c) nodes) }
{
    if level == 0 {
        return part_step(InPart::No(Refusal::Corrupt), next, level, c, nodes);
    }
    if m.level != level - 1 {
        return part_step(InPart::No(Refusal::Corrupt), next, level, c, nodes);
    }
    let k = Mark {
        block: node.block,
        next: next,
    };
    walk_from(image, q, level - 1, m, 0, put(c, level, k), nodes)
}
