// The line of a name of a volume, by its kind.
ghost use Rattle.std.specs.Prelude.{◌≡◌};
ghost use Rattle.calls.specs.Filled.{called_by, answered};
ghost use Rattle.replaced_line.specs.Line.{replaced_on, replaced_counted};

use crate::kinds::{attribute_on, entry_on, inode_on, link_on};
use crate::line::show;
use error::Refusal;
use label::label_replaced;
use lookup::Counted;
use volume::{Volume, Which, open_at};

fn replaced_on(
    image: &[u8],
    v: Volume,
    kind: u64,
    id: u64,
    place: u64,
    nodes: u64,
    out: &mut [u8],
) -> Counted<usize>
    ensures { called_by result out.new ≡ answered (replaced_on image.now v kind id place nodes) out.old }
{
    if kind == 0 {
        return Counted {
            answer: show(label_replaced(image, v), out),
            nodes: nodes,
        };
    }
    if kind == 1 {
        return inode_on(image, v, id, nodes, out);
    }
    if kind == 2 {
        return entry_on(image, v, id, place, nodes, out);
    }
    if kind == 3 {
        return attribute_on(image, v, id, place, nodes, out);
    }
    if kind == 4 {
        return link_on(image, v, id, nodes, out);
    }
    Counted {
        answer: Err(Refusal::NotFound),
        nodes: nodes,
    }
}

pub fn replaced_text(
    image: &[u8],
    which: Which,
    kind: u64,
    id: u64,
    place: u64,
    out: &mut [u8],
) -> Counted<usize>
    ensures { called_by result out.new ≡ answered (replaced_counted image.now which kind id place) out.old }
{
    let opened = open_at(image, which);
    let volume = opened.answer;
    match volume {
        Ok(v) => replaced_on(image, v, kind, id, place, opened.nodes, out),
        Err(w) => Counted {
            answer: Err(w),
            nodes: opened.nodes,
        },
    }
}
