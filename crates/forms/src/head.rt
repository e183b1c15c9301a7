// A node up to its entries: its line, then, once its lists are known to be readable, its attributes and its data.
ghost use Rattle.std.specs.Prelude.{◌≡◌, List, ℕ};
ghost use Rattle.cursor.specs.Left.{run_at};
ghost use Rattle.cursor.specs.Way.{Leads};
ghost use Rattle.records.specs.Attribute.{attribute_at};
ghost use Rattle.volume.specs.Rule.{hashed_keys};
ghost use Rattle.records.specs.Directory.{entry_at};
ghost use Rattle.lists.specs.Lists.{search_of, list_of};
ghost use Rattle.forms.specs.Inner.{go, stand_of, reads, settled, head_course};

use crate::attributes::put_attributes;
use crate::contents_line::put_data;
use crate::reading::read;
use cursor::{Reached, Step, Way};
use inode_record::Inode;
use lines::put_node_line;
use lists::{attribute_from, entry_from, list_on};
use lookup::Counted;
use volume::Volume;

// A place that no list reaches: the whole list from a step on is read, unless it has ended there.
#[tactic(auto, using(crate::proofs::Heads::heads))]
fn settle_attributes(image: &[u8], v: Volume, id: u64, start: Step) -> Counted<()>
    ensures { result ≡ settled (list_of (attribute_at v.reader image.now) (run_at image.now (search_of v id 4) start start.from)) }
{
    if let Reached::End = start.reached {
        return Counted {
            answer: Ok(()),
            nodes: start.nodes,
        };
    }
    let found = attribute_from(image, v, id, 18446744073709551615, start);
    let answer = match found.answer {
        Ok(_) => Ok(()),
        Err(w) => Err(w),
    };
    Counted {
        nodes: found.nodes,
        answer: answer,
    }
}

#[tactic(auto, using(crate::proofs::Heads::heads))]
fn settle_entries(image: &[u8], v: Volume, id: u64, start: Step) -> Counted<()>
    ensures { result ≡ settled (list_of (entry_at (hashed_keys v) v.reader image.now) (run_at image.now (search_of v id 9) start start.from)) }
{
    if let Reached::End = start.reached {
        return Counted {
            answer: Ok(()),
            nodes: start.nodes,
        };
    }
    let found = entry_from(image, v, id, 18446744073709551615, start);
    let answer = match found.answer {
        Ok(_) => Ok(()),
        Err(w) => Err(w),
    };
    Counted {
        nodes: found.nodes,
        answer: answer,
    }
}

fn read_lists(
    p: Counted<usize>,
    image: &[u8],
    v: Volume,
    id: u64,
    attributes: Step,
    entries: Step,
) -> Counted<usize>
    ensures { (b : List ℕ) → stand_of result b ≡ reads (list_of (entry_at (hashed_keys v) v.reader image.now) (run_at image.now (search_of v id 9) entries entries.from)) (reads (list_of (attribute_at v.reader image.now) (run_at image.now (search_of v id 4) attributes attributes.from)) (stand_of p b)) }
{
    let a = settle_attributes(image, v, id, attributes);
    let q = read(p, a);
    let at = q.answer;
    if let Err(_) = at {
        return q;
    }
    let e = settle_entries(image, v, id, entries);
    read(q, e)
}

// On the way down to the inode; the entries are those from a step on.
pub fn put_head(
    out: &mut [u8],
    room: usize,
    p: Counted<usize>,
    image: &[u8],
    v: Volume,
    i: Inode,
    w: Way,
    entries: Step,
) -> Counted<usize>
    requires { Leads image.now (search_of v i.id 3) 0 w }
    ensures { stand_of result out.new ≡ go room (head_course image.now v i (run_at image.now (search_of v i.id 9) entries entries.from)) (stand_of p out.old) }
{
    let at = p.answer;
    let reader = v.reader;
    let a = Counted {
        answer: put_node_line(out, room, at, image, reader, i),
        nodes: p.nodes,
    };
    let line = a.answer;
    if let Err(_) = line {
        return a;
    }
    let attributes = list_on(image, v, i.id, 4, w, 0);
    let b = read_lists(a, image, v, i.id, attributes, entries);
    let c = put_attributes(out, room, b, image, v, i.id, attributes);
    put_data(out, room, c, image, v, i, w)
}
