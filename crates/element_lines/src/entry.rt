// The line of a directory entry, by place.
ghost use Rattle.std.specs.Prelude.{◌≡◌, []};
ghost use Rattle.lines.specs.Shown.{entry_shown};
ghost use Rattle.lines.specs.Lines.{entry_line};
ghost use Rattle.calls.specs.Filled.{filled_at, filled, called_by, answered};
ghost use Rattle.element_lines.specs.Elements.{entry_on, entry_counted};

use error::Refusal;
use lines::put_entry_line;
use lists::entry_at;
use lookup::Counted;
use obj::Reader;
use records::Entry;
use volume::{Volume, Which, open_at};

// Measured first: a buffer that is too short is left as it was.
fn show_entry(image: &[u8], reader: Reader, e: Entry, out: &mut [u8]) -> Result<usize, Refusal>
    ensures { filled_at result out.new ≡ filled (entry_line (entry_shown reader image.now e) []) out.old }
{
    let room = out.len();
    match put_entry_line(&mut out[..0], room, Ok(0), image, reader, e) {
        Err(w) => Err(w),
        Ok(_) => put_entry_line(out, room, Ok(0), image, reader, e),
    }
}

fn entry_on(
    image: &[u8],
    v: Volume,
    id: u64,
    place: u64,
    nodes: u64,
    out: &mut [u8],
) -> Counted<usize>
    ensures { called_by result out.new ≡ answered (entry_on image.now v id place nodes) out.old }
{
    let found = entry_at(image, v, id, place, nodes);
    let reader = v.reader;
    let entry = found.answer;
    match entry {
        Ok(None) => Counted {
            answer: Ok(0),
            nodes: found.nodes,
        },
        Ok(Some(e)) => Counted {
            answer: show_entry(image, reader, e, out),
            nodes: found.nodes,
        },
        Err(w) => Counted {
            answer: Err(w),
            nodes: found.nodes,
        },
    }
}

pub fn entry_text(image: &[u8], which: Which, id: u64, place: u64, out: &mut [u8]) -> Counted<usize>
    ensures { called_by result out.new ≡ answered (entry_counted image.now which id place) out.old }
{
    let opened = open_at(image, which);
    let volume = opened.answer;
    match volume {
        Ok(v) => entry_on(image, v, id, place, opened.nodes, out),
        Err(w) => Counted {
            answer: Err(w),
            nodes: opened.nodes,
        },
    }
}
