// The line of each kind of name.
ghost use Rattle.std.specs.Prelude.{◌≡◌};
ghost use Rattle.calls.specs.Filled.{filled_at, filled, called_by, answered};
ghost use Rattle.replaced_line.specs.Line.{name_line, inode_on, entry_on, attribute_on, target_on, link_on};

use crate::line::show;
use error::Refusal;
use inode_record::Inode;
use links::link_replaced;
use lists::{attribute_at, entry_at, inode};
use lookup::Counted;
use names::Name;
use records::entry_replaced;
use volume::Volume;

fn name_line(name: Option<Name>, out: &mut [u8]) -> Result<usize, Refusal>
    ensures { filled_at result out.new ≡ filled (name_line name) out.old }
{
    match name {
        None => Ok(0),
        Some(n) => show(n.replaced, out),
    }
}

pub fn inode_on(image: &[u8], v: Volume, id: u64, nodes: u64, out: &mut [u8]) -> Counted<usize>
    ensures { called_by result out.new ≡ answered (inode_on image.now v id nodes) out.old }
{
    let found = inode(image, v, id, nodes);
    let read = found.answer;
    match read {
        Ok(i) => {
            let fields = i.fields;
            let name = fields.name;
            Counted {
                answer: name_line(name, out),
                nodes: found.nodes,
            }
        }
        Err(w) => Counted {
            answer: Err(w),
            nodes: found.nodes,
        },
    }
}

pub fn entry_on(
    image: &[u8],
    v: Volume,
    id: u64,
    place: u64,
    nodes: u64,
    out: &mut [u8],
) -> Counted<usize>
    ensures { called_by result out.new ≡ answered (entry_on image.now v id place nodes) out.old }
{
    let found = entry_at(image, v, id, place, nodes);
    let reader = v.reader;
    let entry = found.answer;
    match entry {
        Ok(None) => Counted {
            answer: Ok(0),
            nodes: found.nodes,
        },
        Ok(Some(e)) => Counted {
            answer: show(entry_replaced(reader, image, e), out),
            nodes: found.nodes,
        },
        Err(w) => Counted {
            answer: Err(w),
            nodes: found.nodes,
        },
    }
}

pub fn attribute_on(
    image: &[u8],
    v: Volume,
    id: u64,
    place: u64,
    nodes: u64,
    out: &mut [u8],
) -> Counted<usize>
    ensures { called_by result out.new ≡ answered (attribute_on image.now v id place nodes) out.old }
{
    let found = attribute_at(image, v, id, place, nodes);
    let attribute = found.answer;
    match attribute {
        Ok(None) => Counted {
            answer: Ok(0),
            nodes: found.nodes,
        },
        Ok(Some(a)) => {
            let name = a.name;
            Counted {
                answer: show(name.replaced, out),
                nodes: found.nodes,
            }
        }
        Err(w) => Counted {
            answer: Err(w),
            nodes: found.nodes,
        },
    }
}

fn target_on(image: &[u8], v: Volume, i: Inode, nodes: u64, out: &mut [u8]) -> Counted<usize>
    ensures { called_by result out.new ≡ answered (target_on image.now v i nodes) out.old }
{
    let done = link_replaced(image, v, i, nodes);
    let count = done.answer;
    match count {
        Ok(n) => Counted {
            answer: show(n, out),
            nodes: done.nodes,
        },
        Err(w) => Counted {
            answer: Err(w),
            nodes: done.nodes,
        },
    }
}

pub fn link_on(image: &[u8], v: Volume, id: u64, nodes: u64, out: &mut [u8]) -> Counted<usize>
    ensures { called_by result out.new ≡ answered (link_on image.now v id nodes) out.old }
{
    let found = inode(image, v, id, nodes);
    let read = found.answer;
    match read {
        Ok(i) => target_on(image, v, i, found.nodes, out),
        Err(w) => Counted {
            answer: Err(w),
            nodes: found.nodes,
        },
    }
}
