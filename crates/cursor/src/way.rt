// The way down to the first record of an id, on which searches of the same id and a greater kind begin too.
ghost use Rattle.std.specs.Prelude.{◌≡◌, true, ◌-◌, ◌≤◌, ◌<◌};
ghost use Rattle.btree.specs.Scan.{scan_of};
ghost use Rattle.btree.specs.Inner.{leaf_from, in_node, walk, kinded};
ghost use Rattle.cursor.specs.Left.{top_of, left, Begins};
ghost use Rattle.cursor.specs.Inner.{Known};
ghost use Rattle.cursor.specs.Way.{stays_on, record_in, Leads};

use crate::path::{Mark, Path, mark_of, node_on, none_left, put, top_of};
use crate::steps::{Reached, Step, first, next, whole};
use crate::walk::{InPart, walk_from};
use arith::tick;
use btree::{InLeaf, Search, Turn, next_child, next_in, stays};
use node::Node;

// A node, the entry at which it is begun, its level, what is left above it, and the nodes gone through.
#[derive(Clone, Copy)]
pub struct Way {
    pub node: Node,
    pub from: u32,
    pub level: u16,
    pub path: Path,
    pub nodes: u64,
}

fn way_to(node: Node, from: u32, level: u16, path: Path, nodes: u64) -> Way
    ensures { result ≡ record { node = node; from = from; level = level; path = path; nodes = nodes } }
{
    Way {
        node: node,
        from: from,
        level: level,
        path: path,
        nodes: nodes,
    }
}

// The entry of the first record of a leaf, or its first entry.
fn record_from(image: &[u8], q: Search, node: Node) -> u32
    ensures { result ≡ record_in (in_node image.now q node 0) }
{
    match next_in(image, q.keys, node, 0) {
        InLeaf::At(_, after) => after - 1,
        InLeaf::Passed => 0,
        InLeaf::End => 0,
        InLeaf::No(_) => 0,
    }
}

// Down from the root, into the first child at each level, as far as there is one.
pub fn way_down(image: &[u8], q: Search, nodes: u64) -> Way
    ensures { Leads image.now q nodes result }
{
    let mut m = q.root;
    let mut level = m.level;
    let mut c = none_left();
    let mut n = tick(nodes);
    if 32 < level {
        return way_to(m, 0, level, c, n);
    }
    loop {
        if m.flags / 2 % 2 == 1 {
            return way_to(m, record_from(image, q, m), level, c, n);
        }
        let t = next_child(image, q, m, 0, n);
        let turn = t.turn;
        match turn {
            Turn::Into(child) => {
                if level == 0 {
                    return way_to(m, 0, level, c, n);
                }
                if child.level != level - 1 {
                    return way_to(m, 0, level, c, n);
                }
                let k = Mark {
                    block: m.block,
                    next: t.next,
                };
                c = put(c, level, k);
                level -= 1;
                m = child;
                n = t.nodes;
            }
            Turn::Over => return way_to(m, 0, level, c, n),
            Turn::Stop => return way_to(m, 0, level, c, n),
            Turn::No(_) => return way_to(m, 0, level, c, n),
        }
    }
}

// Whether a search goes into each child of a path.
fn stays_on(image: &[u8], q: Search, c: Path, level: u16) -> bool
    ensures { result ≡ stays_on image.now q c level }
{
    let top = top_of(q);
    let mut l = level;
    while l < top {
        l += 1;
        let k = mark_of(c, l);
        match node_on(image, q, l, k.block) {
            Err(_) => return false,
            Ok(m) => {
                if !stays(image, q, m, k.next) {
                    return false;
                }
            }
        }
    }
    true
}

fn step_to(reached: Reached, from: u32, w: Way) -> Step
    ensures { result ≡ record { reached = reached; from = from; level = w.level; path = w.path; nodes = w.nodes } }
{
    let path = w.path;
    Step {
        reached: reached,
        from: from,
        level: w.level,
        path: path,
        nodes: w.nodes,
    }
}

// The first leaf from a leaf on: mostly itself.
fn begin_leaf(image: &[u8], q: Search, w: Way) -> Step
    ensures { Begins image.now q result (leaf_from image.now q w.node (w.node.nkeys - w.from) w.from w.nodes (left image.now q w.path w.level w.nodes)) }
{
    let node = w.node;
    match next_in(image, q.keys, node, w.from) {
        InLeaf::At(_, after) => step_to(Reached::Leaf(node), after - 1, w),
        InLeaf::Passed => {
            let c = w.path;
            next(image, q, c, w.level, w.nodes)
        }
        InLeaf::End => step_to(Reached::End, 0, w),
        InLeaf::No(e) => step_to(Reached::No(e), 0, w),
    }
}

// The first leaf from an index node on.
fn begin_index(image: &[u8], q: Search, w: Way) -> Step
    requires { (w.level ≤ top_of q) × Known image.now q w.level w.node }
    ensures { Begins image.now q result (walk image.now q w.level w.node w.from (left image.now q w.path w.level) w.nodes) }
{
    let node = w.node;
    let c = w.path;
    let s = walk_from(image, q, w.level, node, w.from, c, w.nodes);
    let found = s.found;
    match found {
        InPart::Passed => next(image, q, c, w.level, s.nodes),
        InPart::At(_) => whole(s),
        InPart::End => whole(s),
        InPart::No(_) => whole(s),
    }
}

fn begin_at(image: &[u8], q: Search, w: Way) -> Step
    requires { (w.level ≤ top_of q) × Known image.now q w.level w.node }
    ensures { Begins image.now q result (walk image.now q w.level w.node w.from (left image.now q w.path w.level) w.nodes) }
{
    let node = w.node;
    if node.flags / 2 % 2 == 1 {
        return begin_leaf(image, q, w);
    }
    begin_index(image, q, w)
}

// The first leaf of a search, on its own way.
pub fn begin(image: &[u8], q: Search, w: Way, nodes: u64) -> Step
    requires { Leads image.now q nodes w }
    ensures { Begins image.now q result (scan_of image.now q nodes) }
{
    let root = q.root;
    if 32 < root.level {
        return first(image, q, nodes);
    }
    begin_at(image, q, w)
}

fn with_kind(q: Search, kind: u8) -> Search
    ensures { result ≡ kinded q kind }
{
    let mut keys = q.keys;
    keys.kind = kind;
    let root = q.root;
    let resolve = q.resolve;
    Search {
        keys: keys,
        root: root,
        resolve: resolve,
    }
}

// The first leaf of a search of the same id and a greater kind: on the way of the lower, unless it skips a child there.
pub fn resume(image: &[u8], q: Search, kind: u8, w: Way, nodes: u64) -> Step
    requires { Leads image.now q nodes w }
    ensures { Begins image.now (kinded q kind) result (scan_of image.now (kinded q kind) nodes) }
{
    let root = q.root;
    let higher = with_kind(q, kind);
    if 32 < root.level {
        return first(image, higher, nodes);
    }
    if kind <= q.keys.kind {
        return first(image, higher, nodes);
    }
    let c = w.path;
    if !stays_on(image, higher, c, w.level) {
        return first(image, higher, nodes);
    }
    begin_at(image, higher, w)
}
