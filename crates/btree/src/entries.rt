// What a scan does at one entry of a node.
ghost use Rattle.std.specs.Prelude.{◌≡◌, ◌<◌, ◌^◌, length};
ghost use Rattle.error.specs.Answer.{Ok};
ghost use Rattle.node.specs.Place.{Small};
ghost use Rattle.lookup.specs.Path.{counted};
ghost use Rattle.btree.specs.Entries.{key_order, order_of, order_in, item_told, item_in, record_of, entering_told, child_node, enter_at};

use arith::tick;
use byte_fields::{part, u64_at};
use error::Refusal;
use lookup::{Counted, Resolve, read_node, resolve_child};
use node::{Info, KeyValue, Node, Place, child_of, entry, place_of};
use obj::Reader;

// What is looked for in a node: the keys of an id and a kind.
#[derive(Clone, Copy)]
pub struct Keys {
    pub reader: Reader,
    pub info: Info,
    pub id: u64,
    pub kind: u8,
    pub hashed: bool,
}

// The records of an id and a kind in the tree below a root.
#[derive(Clone, Copy)]
pub struct Search {
    pub keys: Keys,
    pub root: Node,
    pub resolve: Resolve,
}

// How a key stands to what is searched.
#[derive(Clone, Copy)]
pub enum Order {
    Below,
    Inside,
    Above,
}

// What an entry of a leaf gives.
#[derive(Clone, Copy)]
pub enum Item {
    Pass,
    Stop,
    At(Place),
    No(Refusal),
}

// How a key that begins with `head` stands to an id and a kind: the id is compared first.
fn order_of(wanted_id: u64, wanted_kind: u8, head: u64) -> Order
    ensures { result ≡ order_of wanted_id wanted_kind head }
{
    let id = head % 1152921504606846976;
    let kind = head / 1152921504606846976;
    let wanted = wanted_kind as u64;
    if id == wanted_id {
        if kind == wanted {
            return Order::Inside;
        }
        if kind <= wanted {
            return Order::Below;
        }
        return Order::Above;
    }
    if id <= wanted_id {
        return Order::Below;
    }
    Order::Above
}

#[tactic(auto, unfolding(crate::specs::Entries::key_order, error::specs::Answer::if_le, error::specs::Answer::if_eq))]
fn key_order(id: u64, kind: u8, key: &[u8]) -> Result<Order, Refusal>
    ensures { result ≡ key_order id kind key.now }
{
    let head = u64_at(key, 0)?;
    Ok(order_of(id, kind, head))
}

// How the i-th entry of a node in the block b stands to what is searched.
#[tactic(auto, unfolding(crate::specs::Entries::order_in, error::specs::Answer::if_le, error::specs::Answer::if_eq))]
pub fn order_in(
    b: &[u8],
    node: Node,
    info: Info,
    id: u64,
    kind: u8,
    i: u32,
) -> Result<Order, Refusal>
    ensures { result ≡ order_in b.now node info id kind i }
{
    let e = entry(b, node, info, i)?;
    key_order(id, kind, part(b, e.key))
}

// A record of a leaf, unless it has no value.
fn record_of(node: Node, e: KeyValue) -> Item
    requires { Small e }
    ensures { item_told result ≡ Ok (record_of node e) }
{
    let value = e.value;
    match value {
        Some(_) => Item::At(place_of(node.block, e)),
        None => Item::Pass,
    }
}

// The i-th entry of a leaf in the block b.
pub fn item_in(b: &[u8], node: Node, info: Info, id: u64, kind: u8, i: u32) -> Item
    requires { length b.now < 2 ^ 32 }
    ensures { item_told result ≡ item_in b.now node info id kind i }
{
    match entry(b, node, info, i) {
        Ok(e) => match key_order(id, kind, part(b, e.key)) {
            Ok(o) => match o {
                Order::Below => Item::Pass,
                Order::Inside => record_of(node, e),
                Order::Above => Item::Stop,
            },
            Err(e) => Item::No(e),
        },
        Err(e) => Item::No(e),
    }
}

// The node that a child's name leads to.
fn read_child(image: &[u8], q: Search, child: u64, nodes: u64) -> Counted<Node>
    ensures { entering_told result ≡ counted nodes (child_node image.now q child) }
{
    let resolve = q.resolve;
    let resolved = resolve_child(q.keys.reader, image, resolve, child, nodes);
    let paddr = resolved.answer;
    match paddr {
        Ok(p) => match read_node(q.keys.reader, image, p) {
            Ok(m) => Counted {
                answer: Ok(m),
                nodes: tick(resolved.nodes),
            },
            Err(e) => Counted {
                answer: Err(e),
                nodes: resolved.nodes,
            },
        },
        Err(e) => Counted {
            answer: Err(e),
            nodes: resolved.nodes,
        },
    }
}

// The child of the i-th entry of an index node.
pub fn enter(image: &[u8], q: Search, node: Node, i: u32, nodes: u64) -> Counted<Node>
    ensures { entering_told result ≡ counted nodes (enter_at image.now q node i) }
{
    match child_of(q.keys.reader.block(image, node.block), node, q.keys.info, i) {
        Ok(child) => read_child(image, q, child, nodes),
        Err(e) => Counted {
            answer: Err(e),
            nodes: nodes,
        },
    }
}
