// The bookmark of a volume's record, and the record that a bookmark leads to.
ghost use Rattle.std.specs.Prelude.{◌≡◌};
ghost use Rattle.calls.specs.Filled.{filled_at, filled_by, called_by, answered};
ghost use Rattle.marks.specs.Texts.{mark_on, mark_counted, record_text, marked_counted};

use crate::handed::handed_in;
use crate::mark::show_mark;
use crate::record_line::show_record;
use btree::scan;
use checkpoints::Choice;
use error::Refusal;
use lists::search;
use lookup::Counted;
use obj::Reader;
use volume::{Volume, Which, open_at};

#[tactic(auto, using(calls::proofs::Filling::filled_nothing), unfolding(crate::specs::Texts::mark_on))]
fn mark_on(
    image: &[u8],
    v: Volume,
    id: u64,
    kind: u8,
    place: u64,
    nodes: u64,
    out: &mut [u8],
) -> Counted<usize>
    ensures { called_by result out.new ≡ answered (mark_on image.now v id kind place nodes) out.old }
{
    let s = scan(image, search(v, id, kind), place, nodes);
    let answer = match s.answer {
        Ok(Some(p)) => show_mark(p, out),
        Ok(None) => Ok(0),
        Err(e) => Err(e),
    };
    Counted {
        nodes: s.nodes,
        answer,
    }
}

#[tactic(auto, unfolding(crate::specs::Texts::mark_counted))]
pub fn mark_text(
    image: &[u8],
    which: Which,
    id: u64,
    kind: u8,
    place: u64,
    out: &mut [u8],
) -> Counted<usize>
    ensures { called_by result out.new ≡ answered (mark_counted image.now which id kind place) out.old }
{
    let opened = open_at(image, which);
    match opened.answer {
        Ok(v) => mark_on(image, v, id, kind, place, opened.nodes, out),
        Err(e) => Counted {
            answer: Err(e),
            nodes: opened.nodes,
        },
    }
}

#[tactic(auto, unfolding(crate::specs::Texts::record_text))]
fn record_of(reader: Reader, image: &[u8], mark: &[u8], out: &mut [u8]) -> Result<usize, Refusal>
    ensures { filled_at result out.new ≡ filled_by (record_text reader image.now mark.now) out.old }
{
    let p = handed_in(reader, image, mark)?;
    show_record(reader, image, p, out)
}

#[tactic(auto, unfolding(crate::specs::Texts::marked_counted))]
pub fn marked_text(image: &[u8], choice: Choice, mark: &[u8], out: &mut [u8]) -> Counted<usize>
    ensures { called_by result out.new ≡ answered (marked_counted choice image.now mark.now) out.old }
{
    let opened = nx::open(image, choice);
    let answer = match opened.answer {
        Ok(c) => record_of(c.reader, image, mark, out),
        Err(e) => Err(e),
    };
    Counted {
        nodes: opened.nodes,
        answer,
    }
}
