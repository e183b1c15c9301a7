// The line of a file's extent, by place.
ghost use Rattle.std.specs.Prelude.{◌≡◌, []};
ghost use Rattle.lines.specs.Lines.{extent_line};
ghost use Rattle.calls.specs.Filled.{filled_at, filled, called_by, answered};
ghost use Rattle.element_lines.specs.Elements.{extent_of, extent_on, extent_counted};

use error::Refusal;
use inode_record::Inode;
use lines::put_extent_line;
use lists::{file_extents, inode};
use lookup::Counted;
use records::Extent;
use volume::{Volume, Which, open_at};

// Measured first: a buffer that is too short is left as it was.
fn show_extent(e: Extent, out: &mut [u8]) -> Result<usize, Refusal>
    ensures { filled_at result out.new ≡ filled (extent_line e []) out.old }
{
    let room = out.len();
    match put_extent_line(&mut out[..0], room, Ok(0), e) {
        Err(w) => Err(w),
        Ok(_) => put_extent_line(out, room, Ok(0), e),
    }
}

fn extent_of(
    image: &[u8],
    v: Volume,
    i: Inode,
    place: u64,
    nodes: u64,
    out: &mut [u8],
) -> Counted<usize>
    ensures { called_by result out.new ≡ answered (extent_of image.now v i place nodes) out.old }
{
    let found = file_extents(image, v, i, place, nodes);
    let extent = found.answer;
    match extent {
        Ok(None) => Counted {
            answer: Ok(0),
            nodes: found.nodes,
        },
        Ok(Some(e)) => Counted {
            answer: show_extent(e, out),
            nodes: found.nodes,
        },
        Err(w) => Counted {
            answer: Err(w),
            nodes: found.nodes,
        },
    }
}

fn extent_on(
    image: &[u8],
    v: Volume,
    id: u64,
    place: u64,
    nodes: u64,
    out: &mut [u8],
) -> Counted<usize>
    ensures { called_by result out.new ≡ answered (extent_on image.now v id place nodes) out.old }
{
    let found = inode(image, v, id, nodes);
    let read = found.answer;
    match read {
        Ok(i) => extent_of(image, v, i, place, found.nodes, out),
        Err(w) => Counted {
            answer: Err(w),
            nodes: found.nodes,
        },
    }
}

pub fn extent_text(
    image: &[u8],
    which: Which,
    id: u64,
    place: u64,
    out: &mut [u8],
) -> Counted<usize>
    ensures { called_by result out.new ≡ answered (extent_counted image.now which id place) out.old }
{
    let opened = open_at(image, which);
    let volume = opened.answer;
    match volume {
        Ok(v) => extent_on(image, v, id, place, opened.nodes, out),
        Err(w) => Counted {
            answer: Err(w),
            nodes: opened.nodes,
        },
    }
}
