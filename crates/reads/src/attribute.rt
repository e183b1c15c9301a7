// The bytes of an attribute, by place.
ghost use Rattle.std.specs.Prelude.{◌≡◌};
ghost use Rattle.links.specs.Link.{contents_of};
ghost use Rattle.calls.specs.Filled.{called_by, answered};
ghost use Rattle.reads.specs.Reads.{xattr_on, xattr_counted};

use links::read_xattr;
use lists::attribute_at;
use lookup::Counted;
use records::Attribute;
use volume::{Volume, Which, open_at};

fn xattr_of(image: &[u8], v: Volume, a: Attribute, nodes: u64, out: &mut [u8]) -> Counted<usize>
    ensures { called_by result out.new ≡ answered (contents_of image.now v a nodes) out.old }
{
    let done = read_xattr(image, v, a, out, nodes);
    let count = done.answer;
    match count {
        Ok(n) => Counted {
            answer: Ok(n as usize),
            nodes: done.nodes,
        },
        Err(w) => Counted {
            answer: Err(w),
            nodes: done.nodes,
        },
    }
}

fn xattr_on(
    image: &[u8],
    v: Volume,
    id: u64,
    place: u64,
    nodes: u64,
    out: &mut [u8],
) -> Counted<usize>
    ensures { called_by result out.new ≡ answered (xattr_on image.now v id place nodes) out.old }
{
    let found = attribute_at(image, v, id, place, nodes);
    let attribute = found.answer;
    match attribute {
        Ok(None) => Counted {
            answer: Ok(0),
            nodes: found.nodes,
        },
        Ok(Some(a)) => xattr_of(image, v, a, found.nodes, out),
        Err(w) => Counted {
            answer: Err(w),
            nodes: found.nodes,
        },
    }
}

pub fn xattr_bytes(
    image: &[u8],
    which: Which,
    id: u64,
    place: u64,
    out: &mut [u8],
) -> Counted<usize>
    ensures { called_by result out.new ≡ answered (xattr_counted image.now which id place) out.old }
{
    let opened = open_at(image, which);
    let volume = opened.answer;
    match volume {
        Ok(v) => xattr_on(image, v, id, place, opened.nodes, out),
        Err(w) => Counted {
            answer: Err(w),
            nodes: opened.nodes,
        },
    }
}
