// The record of a scan after a number of others: a recursion on the falling level that passes on how many remain to skip.
ghost use Rattle.std.specs.Prelude.{◌≡◌, ℕ, ◌-◌, ◌<◌, ◌^◌, List, length};
ghost use Rattle.btree.specs.Entries.{bytes_of};
ghost use Rattle.btree.specs.Scan.{Run, Tail, scan_of, nth};
ghost use Rattle.btree.specs.declared.entries.Search.{Search};
ghost use Rattle.btree.specs.Inner.{leaf_from, walk, child, met, pass_told, found_of};

use crate::entries::{Keys, Search};
use crate::leaf::{InLeaf, in_leaf};
use crate::seek::{Turn, next_child};
use arith::tick;
use error::Refusal;
use lookup::Counted;
use node::{Node, Place};

// Left: the part is passed, with as many still to skip.
#[derive(Clone, Copy)]
pub enum Pass {
    At(Place),
    Left(u64),
    End,
    No(Refusal),
}

#[derive(Clone, Copy)]
pub struct Passed {
    pub pass: Pass,
    pub nodes: u64,
}

fn pass_of(pass: Pass, nodes: u64) -> Passed
    ensures { result ≡ record { pass = pass; nodes = nodes } }
{
    Passed {
        pass: pass,
        nodes: nodes,
    }
}

// The records of a leaf in the block b. Any image that has that block there will do.
fn pass_in(b: &[u8], k: Keys, node: Node, skip: u64) -> Pass
    requires { length b.now < 2 ^ 32 }
    ensures { (image : List ℕ) (q : Search) → k ≡ q.keys → b.now ≡ bytes_of image q node → (s : ℕ) (t : Run) → met result s t ≡ nth skip (leaf_from image q node (node.nkeys - 0) 0 s t) }
{
    let mut left = skip;
    let mut i: u32 = 0;
    loop {
        match in_leaf(b, node, k.info, k.id, k.kind, i) {
            InLeaf::Passed => return Pass::Left(left),
            InLeaf::End => return Pass::End,
            InLeaf::No(e) => return Pass::No(e),
            InLeaf::At(p, after) => {
                if left == 0 {
                    return Pass::At(p);
                }
                left -= 1;
                i = after;
            }
        }
    }
}

fn pass_leaf(image: &[u8], q: Search, node: Node, skip: u64) -> Pass
    ensures { (s : ℕ) (k : Run) → met result s k ≡ nth skip (leaf_from image.now q node (node.nkeys - 0) 0 s k) }
{
    let k = q.keys;
    pass_in(k.reader.block(image, node.block), k, node, skip)
}

#[cycle(pass_child_pass_node)]
fn pass_node(image: &[u8], q: Search, level: u16, node: Node, skip: u64, nodes: u64) -> Passed
    ensures { (k : Tail) → pass_told result k ≡ nth skip (walk image.now q level node 0 k nodes) }
{
    if node.flags / 2 % 2 == 1 {
        return Passed {
            pass: pass_leaf(image, q, node, skip),
            nodes: nodes,
        };
    }
    let mut left = skip;
    let mut n = nodes;
    let mut i: u32 = 0;
    loop {
        let t = next_child(image, q, node, i, n);
        let turn = t.turn;
        i = t.next;
        n = t.nodes;
        match turn {
            Turn::Over => return pass_of(Pass::Left(left), n),
            Turn::Stop => return pass_of(Pass::End, n),
            Turn::Into(m) => {
                let s = pass_child(image, q, level, m, left, n);
                let pass = s.pass;
                n = s.nodes;
                match pass {
                    Pass::At(_) => return s,
                    Pass::Left(x) => {
                        left = x;
                    }
                    Pass::End => return s,
                    Pass::No(_) => return s,
                }
            }
            Turn::No(e) => return pass_of(Pass::No(e), n),
        }
    }
}

#[cycle(pass_child_pass_node)]
fn pass_child(image: &[u8], q: Search, level: u16, m: Node, skip: u64, nodes: u64) -> Passed
    ensures { (k : Tail) → pass_told result k ≡ nth skip (child image.now q level m k nodes) }
{
    if level == 0 {
        return pass_of(Pass::No(Refusal::Corrupt), nodes);
    }
    if m.level != level - 1 {
        return pass_of(Pass::No(Refusal::Corrupt), nodes);
    }
    pass_node(image, q, level - 1, m, skip, nodes)
}

// At the root nothing follows.
fn found_of(pass: Pass) -> Result<Option<Place>, Refusal>
    ensures { result ≡ found_of pass }
{
    match pass {
        Pass::At(p) => Ok(Some(p)),
        Pass::Left(_) => Ok(None),
        Pass::End => Ok(None),
        Pass::No(e) => Err(e),
    }
}

// The record that stands after `skip` others.
pub fn scan(image: &[u8], q: Search, skip: u64, nodes: u64) -> Counted<Option<Place>>
    ensures { result ≡ nth skip (scan_of image.now q nodes) }
{
    let root = q.root;
    if 32 < root.level {
        return Counted {
            answer: Err(Refusal::Corrupt),
            nodes: nodes,
        };
    }
    let counted = tick(nodes);
    let s = pass_node(image, q, root.level, root, skip, counted);
    let pass = s.pass;
    Counted {
        answer: found_of(pass),
        nodes: s.nodes,
    }
}
