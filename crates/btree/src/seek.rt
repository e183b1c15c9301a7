// The children of an index node that a scan goes into, one after the other: each key is read once.
ghost use Rattle.std.specs.Prelude.{◌≡◌, ◌+◌, ◌-◌, ◌<◌};
ghost use Rattle.btree.specs.Inner.{follow_in, seek_in, seek_at, turn_of, Reaches, stays_at};

use crate::entries::{Order, Search, enter, order_in};
use error::Refusal;
use lookup::Counted;
use node::{Info, Node};

// The entry that is gone into, where all of them may be passed, or the scan ends.
#[derive(Clone, Copy)]
pub enum Seek {
    Over,
    Stop,
    At(u32),
    No(Refusal),
}

#[derive(Clone, Copy)]
pub enum Turn {
    Over,
    Stop,
    Into(Node),
    No(Refusal),
}

// What to do next, the entry at which the node then goes on, and the nodes gone through.
#[derive(Clone, Copy)]
pub struct Turned {
    pub turn: Turn,
    pub next: u32,
    pub nodes: u64,
}

// An entry that is not above is skipped as long as the one after it is below.
fn past_below(b: &[u8], node: Node, info: Info, id: u64, kind: u8, from: u32) -> Seek
    requires { from < node.nkeys }
    ensures { result ≡ follow_in b.now node info id kind from }
{
    let mut at = from;
    loop {
        if node.nkeys <= at + 1 {
            return Seek::At(at);
        }
        match order_in(b, node, info, id, kind, at + 1) {
            Ok(o) => match o {
                Order::Below => {
                    at += 1;
                }
                Order::Inside => return Seek::At(at),
                Order::Above => return Seek::At(at),
            },
            Err(e) => return Seek::No(e),
        }
    }
}

fn seek_in(b: &[u8], node: Node, info: Info, id: u64, kind: u8, from: u32) -> Seek
    ensures { result ≡ seek_in b.now node info id kind (node.nkeys - from) from }
{
    if node.nkeys <= from {
        return Seek::Over;
    }
    match order_in(b, node, info, id, kind, from) {
        Ok(o) => match o {
            Order::Below => past_below(b, node, info, id, kind, from),
            Order::Inside => past_below(b, node, info, id, kind, from),
            Order::Above => Seek::Stop,
        },
        Err(e) => Seek::No(e),
    }
}

// The entry of an index node of the image that is gone into, from an entry on.
fn seek_at(image: &[u8], q: Search, node: Node, from: u32) -> Seek
    ensures { result ≡ seek_at image.now q node from }
{
    seek_in(
        q.keys.reader.block(image, node.block),
        node,
        q.keys.info,
        q.keys.id,
        q.keys.kind,
        from,
    )
}

fn turn_made(turn: Turn, next: u32, nodes: u64) -> Turned
    ensures { result ≡ record { turn = turn; next = next; nodes = nodes } }
{
    Turned {
        turn: turn,
        next: next,
        nodes: nodes,
    }
}

fn turn_of(node: Result<Node, Refusal>) -> Turn
    ensures { result ≡ turn_of node }
{
    match node {
        Ok(m) => Turn::Into(m),
        Err(e) => Turn::No(e),
    }
}

// The node goes on behind its i-th entry.
fn into_child(node: Node, i: u32, e: Counted<Node>) -> Turned
    requires { i < node.nkeys }
    ensures { result ≡ record { turn = turn_of e.answer; next = i + 1; nodes = e.nodes } }
{
    let child = e.answer;
    turn_made(turn_of(child), i + 1, e.nodes)
}

// The next child of an index node, from an entry on.
pub fn next_child(image: &[u8], q: Search, node: Node, from: u32, nodes: u64) -> Turned
    ensures { Reaches image.now q node from nodes result }
{
    match seek_at(image, q, node, from) {
        Seek::Over => turn_made(Turn::Over, from, nodes),
        Seek::Stop => turn_made(Turn::Stop, from, nodes),
        Seek::No(e) => turn_made(Turn::No(e), from, nodes),
        Seek::At(i) => into_child(node, i, enter(image, q, node, i, nodes)),
    }
}

// Whether a child before an entry of an index node is gone into, and not skipped: the entry is not below, or there is none.
pub fn stays(image: &[u8], q: Search, node: Node, i: u32) -> bool
    ensures { result ≡ stays_at image.now q node i }
{
    if node.nkeys <= i {
        return true;
    }
    match order_in(
        q.keys.reader.block(image, node.block),
        node,
        q.keys.info,
        q.keys.id,
        q.keys.kind,
        i,
    ) {
        Ok(o) => match o {
            Order::Below => false,
            Order::Inside => true,
            Order::Above => true,
        },
        Err(_) => false,
    }
}
