// The first attribute of a name (fs.rs, `xattr`).
ghost use Rattle.std.specs.Prelude.{◌≡◌};
ghost use Rattle.links.specs.Named.{has_name, attribute_named};
ghost use Rattle.links.specs.Inner.{there, link_attribute};

use cursor::{first, next};
use error::Refusal;
use inode_record::Inode;
use lists::{Seen, attribute_in, search};
use lookup::Counted;
use obj::Reader;
use records::{Attribute, attribute_name};
use utf8::reads_as;
use volume::Volume;

#[tactic(auto, unfolding(crate::specs::Named::has_name))]
fn has_name(reader: Reader, image: &[u8], name: &[u8], a: Attribute) -> bool
    ensures { result ≡ has_name reader image.now name.now a }
{
    reads_as(attribute_name(reader, image, a), name)
}

// The whole list is read, wherever the name stands in it.
#[tactic(auto, using(crate::proofs::Names::names))]
pub fn attribute_named(
    image: &[u8],
    v: Volume,
    id: u64,
    name: &[u8],
    nodes: u64,
) -> Counted<Option<Attribute>>
    ensures { result ≡ attribute_named image.now v id name.now nodes }
{
    let q = search(v, id, 4);
    let reader = v.reader;
    let mut kept = None;
    let mut s = first(image, q, nodes);
    let mut i = s.from;
    let answer = loop {
        match attribute_in(image, q.keys, s.reached, i) {
            Seen::Over => break Ok(kept),
            Seen::Refused(e) => break Err(e),
            Seen::Passed => {
                s = next(image, q, s.path, s.level, s.nodes);
                i = s.from;
            }
            Seen::Element(a, after) => {
                i = after;
                if kept.is_none() && has_name(reader, image, name, a) {
                    kept = Some(a);
                }
            }
        }
    };
    Counted {
        nodes: s.nodes,
        answer,
    }
}

// An attribute that a link can't be without.
fn there(found: Result<Option<Attribute>, Refusal>) -> Result<Attribute, Refusal>
    ensures { result ≡ there found }
{
    found?.ok_or(Refusal::Corrupt)
}

// The attribute that holds a symbolic link's text.
pub fn link_attribute(image: &[u8], v: Volume, inode: Inode, nodes: u64) -> Counted<Attribute>
    ensures { result ≡ link_attribute image.now v inode nodes }
{
    let f = attribute_named(image, v, inode.id, b"com.apple.fs.symlink", nodes);
    Counted {
        nodes: f.nodes,
        answer: there(f.answer),
    }
}
