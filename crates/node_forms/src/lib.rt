// A node's form holds entry forms, and an entry's form holds a node's: the two writers call each other, and the depth that remains falls.
#![tactic(auto)]

ghost use Rattle.std.specs.Prelude.{◌≡◌, []};
ghost use Rattle.lines.specs.Lines.{close};
ghost use Rattle.forms.specs.Course.{writes, entry_course, node_course};
ghost use Rattle.forms.specs.Inner.{stand_of, go};

use cursor::next;
use error::Refusal;
use forms::{put_head, read, refuse};
use lines::put_entry_line;
use lists::{Seen, entry_in, inode_on, inode_way, list_on, search};
use lookup::Counted;
use records::Entry;
use text::put_all;
use volume::Volume;

// The end of a form.
fn put_close(out: &mut [u8], room: usize, p: Counted<usize>) -> Counted<usize>
    ensures { stand_of result out.new ≡ go room (writes (close [])) (stand_of p out.old) }
{
    let at = p.answer;
    Counted {
        answer: put_all(out, room, at, b")\n"),
        nodes: p.nodes,
    }
}

// The node of an id, with as many levels as `levels` from it on.
#[cycle(put_entry_put_node)]
pub fn put_node(
    out: &mut [u8],
    room: usize,
    p: Counted<usize>,
    image: &[u8],
    v: Volume,
    id: u64,
    levels: u32,
) -> Counted<usize>
    ensures { stand_of result out.new ≡ go room (node_course image.now v levels id) (stand_of p out.old) }
{
    if levels == 0 {
        let at = p.answer;
        return Counted {
            answer: refuse(at, Refusal::TooDeep),
            nodes: p.nodes,
        };
    }
    let way = inode_way(image, v, id, 0);
    let found = inode_on(image, v, id, way, 0);
    let inode = found.answer;
    match inode {
        Err(w) => read(
            p,
            Counted {
                answer: Err(w),
                nodes: found.nodes,
            },
        ),
        Ok(i) => {
            let q = search(v, id, 9);
            let keys = q.keys;
            let mut s = list_on(image, v, id, 9, way, 0);
            let a = read(
                p,
                Counted {
                    answer: Ok(()),
                    nodes: found.nodes,
                },
            );
            let mut o = put_head(out, room, a, image, v, i, way, s);
            let mut k = s.from;
            loop {
                let reached = s.reached;
                match entry_in(image, keys, reached, k) {
                    Seen::Over => return put_close(out, room, o),
                    Seen::Refused(_) => return put_close(out, room, o),
                    Seen::Passed => {
                        let c = s.path;
                        s = next(image, q, c, s.level, s.nodes);
                        k = s.from;
                    }
                    Seen::Element(e, after) => {
                        o = put_entry(out, room, o, image, v, e, levels - 1);
                        k = after;
                    }
                }
            }
        }
    }
}

// An entry's line, its node, and its end. Nothing is read once the position is refused.
#[cycle(put_entry_put_node)]
fn put_entry(
    out: &mut [u8],
    room: usize,
    p: Counted<usize>,
    image: &[u8],
    v: Volume,
    e: Entry,
    levels: u32,
) -> Counted<usize>
    ensures { stand_of result out.new ≡ go room (entry_course (node_course image.now v levels) image.now v e) (stand_of p out.old) }
{
    let at = p.answer;
    let reader = v.reader;
    let a = Counted {
        answer: put_entry_line(out, room, at, image, reader, e),
        nodes: p.nodes,
    };
    let line = a.answer;
    if let Err(_) = line {
        return a;
    }
    let b = put_node(out, room, a, image, v, e.file_id, levels);
    put_close(out, room, b)
}
