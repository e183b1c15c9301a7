// An element of a list, read from the next record of a leaf.
ghost use Rattle.std.specs.Prelude.{◌≡◌, ◌-◌, ◌<◌, ◌^◌, length};
ghost use Rattle.btree.specs.Inner.{in_leaf};
ghost use Rattle.cursor.specs.Left.{in_reached};
ghost use Rattle.records.specs.Directory.{entry_of, entry_at};
ghost use Rattle.records.specs.Attribute.{attribute_of, attribute_at};
ghost use Rattle.records.specs.Extent.{extent_of, extent_at};
ghost use Rattle.lists.specs.Seen.{seen_in};

use btree::{InLeaf, Keys, in_leaf};
use cursor::Reached;
use error::Refusal;
use node::Node;
use records::{Attribute, Entry, Extent};

// Over: the list ends. Passed: the leaf has no more of it. An element comes with the entry after it.
#[derive(Clone, Copy)]
pub enum Seen<T> {
    Over,
    Passed,
    Element(T, u32),
    Refused(Refusal),
}

// The next entry of a leaf m whose block is b.
fn entry_of(b: &[u8], k: Keys, m: Node, from: u32) -> Seen<Entry>
    requires { length b.now < 2 ^ 32 }
    ensures { result ≡ seen_in (entry_of k.hashed b.now) (in_leaf b.now m k.info k.id k.kind (m.nkeys - from) from) }
{
    match in_leaf(b, m, k.info, k.id, k.kind, from) {
        InLeaf::At(p, after) => match records::entry_of(b, p, k.hashed) {
            Ok(x) => Seen::Element(x, after),
            Err(e) => Seen::Refused(e),
        },
        InLeaf::Passed => Seen::Passed,
        InLeaf::End => Seen::Over,
        InLeaf::No(e) => Seen::Refused(e),
    }
}

pub fn entry_in(image: &[u8], k: Keys, reached: Reached, from: u32) -> Seen<Entry>
    ensures { result ≡ seen_in (entry_at k.hashed k.reader image.now) (in_reached image.now k reached from) }
{
    match reached {
        Reached::Leaf(m) => entry_of(k.reader.block(image, m.block), k, m, from),
        Reached::End => Seen::Over,
        Reached::No(e) => Seen::Refused(e),
    }
}

// The next attribute of a leaf m whose block is b.
fn attribute_of(b: &[u8], k: Keys, m: Node, from: u32) -> Seen<Attribute>
    requires { length b.now < 2 ^ 32 }
    ensures { result ≡ seen_in (attribute_of b.now) (in_leaf b.now m k.info k.id k.kind (m.nkeys - from) from) }
{
    match in_leaf(b, m, k.info, k.id, k.kind, from) {
        InLeaf::At(p, after) => match records::attribute_of(b, p) {
            Ok(x) => Seen::Element(x, after),
            Err(e) => Seen::Refused(e),
        },
        InLeaf::Passed => Seen::Passed,
        InLeaf::End => Seen::Over,
        InLeaf::No(e) => Seen::Refused(e),
    }
}

pub fn attribute_in(image: &[u8], k: Keys, reached: Reached, from: u32) -> Seen<Attribute>
    ensures { result ≡ seen_in (attribute_at k.reader image.now) (in_reached image.now k reached from) }
{
    match reached {
        Reached::Leaf(m) => attribute_of(k.reader.block(image, m.block), k, m, from),
        Reached::End => Seen::Over,
        Reached::No(e) => Seen::Refused(e),
    }
}

// The next extent of a leaf m whose block is b.
fn extent_of(b: &[u8], k: Keys, m: Node, from: u32) -> Seen<Extent>
    requires { length b.now < 2 ^ 32 }
    ensures { result ≡ seen_in (extent_of b.now) (in_leaf b.now m k.info k.id k.kind (m.nkeys - from) from) }
{
    match in_leaf(b, m, k.info, k.id, k.kind, from) {
        InLeaf::At(p, after) => match records::extent_of(b, p) {
            Ok(x) => Seen::Element(x, after),
            Err(e) => Seen::Refused(e),
        },
        InLeaf::Passed => Seen::Passed,
        InLeaf::End => Seen::Over,
        InLeaf::No(e) => Seen::Refused(e),
    }
}

pub fn extent_in(image: &[u8], k: Keys, reached: Reached, from: u32) -> Seen<Extent>
    ensures { result ≡ seen_in (extent_at k.reader image.now) (in_reached image.now k reached from) }
{
    match reached {
        Reached::Leaf(m) => extent_of(k.reader.block(image, m.block), k, m, from),
        Reached::End => Seen::Over,
        Reached::No(e) => Seen::Refused(e),
    }
}
