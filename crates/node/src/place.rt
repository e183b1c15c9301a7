// A record's place in 24 bytes: its block, and where its key and its value lie inside the block. Document 02, request 10.
ghost use Rattle.std.specs.Prelude.{◌≡◌};
ghost use Rattle.byte_fields.specs.Part.{part_of};
ghost use Rattle.node.specs.Place.{place_of, place_at, key_span, value_span, placed_value, key_of, value_of, Small};

use crate::layout::{Info, Node};
use crate::table::{KeyValue, entry};
use byte_fields::{Span, part};
use error::Refusal;
use obj::Reader;

// A missing value has 0xFFFFFFFF in both its fields.
#[derive(Clone, Copy)]
pub struct Place {
    pub block: u64,
    pub key_off: u32,
    pub key_len: u32,
    pub val_off: u32,
    pub val_len: u32,
}

// The place of an entry of the node at a block.
pub fn place_of(block: u64, e: KeyValue) -> Place
    requires { Small e }
    ensures { result ≡ place_of block e }
{
    let key = e.key;
    let value = e.value;
    match value {
        Some(v) => Place {
            block: block,
            key_off: key.start as u32,
            key_len: key.len as u32,
            val_off: v.start as u32,
            val_len: v.len as u32,
        },
        None => Place {
            block: block,
            key_off: key.start as u32,
            key_len: key.len as u32,
            val_off: 4294967295,
            val_len: 4294967295,
        },
    }
}

// The place of the i-th entry of a node. A block is shorter than 2^32 bytes, so whatever lies in it fits.
#[tactic(auto, using(crate::proofs::Places::making), unfolding(crate::specs::Place::place_at))]
pub fn entry_place(
    reader: Reader,
    image: &[u8],
    node: Node,
    info: Info,
    i: u32,
) -> Result<Place, Refusal>
    ensures { result ≡ place_at reader image.now node info i }
{
    let e = entry(reader.block(image, node.block), node, info, i)?;
    Ok(place_of(node.block, e))
}

fn key_span(place: Place) -> Span
    ensures { result ≡ key_span place }
{
    Span {
        start: place.key_off as usize,
        len: place.key_len as usize,
    }
}

fn value_span(place: Place) -> Span
    ensures { result ≡ value_span place }
{
    Span {
        start: place.val_off as usize,
        len: place.val_len as usize,
    }
}

// Where the value lies, if there is one.
pub fn held_value(place: Place) -> Option<Span>
    ensures { result ≡ placed_value place }
{
    if place.val_off != 4294967295 {
        return Some(value_span(place));
    }
    if place.val_len != 4294967295 {
        return Some(value_span(place));
    }
    None
}

// The bytes of a record's key, in its block.
pub fn key_in(b: &[u8], place: Place) -> &[u8]
    ensures { result.now ≡ part_of b.now (key_span place) }
{
    part(b, key_span(place))
}

// The bytes of a record's value, in its block; none where it is missing.
pub fn value_in(b: &[u8], place: Place) -> &[u8]
    ensures { result.now ≡ part_of b.now (value_span place) }
{
    part(b, value_span(place))
}

// The bytes of a record's key.
pub fn key_of(reader: Reader, image: &[u8], place: Place) -> &[u8]
    ensures { result.now ≡ key_of reader image.now place }
{
    key_in(reader.block(image, place.block), place)
}

// The bytes of a record's value.
pub fn value_of(reader: Reader, image: &[u8], place: Place) -> &[u8]
    ensures { result.now ≡ value_of reader image.now place }
{
    value_in(reader.block(image, place.block), place)
}
