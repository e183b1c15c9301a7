// The lines of a directory's entries from a place on, as many as fit.
#![tactic(auto)]

ghost use Rattle.std.specs.Prelude.{◌≡◌, length, drop, ◌≤◌};
ghost use Rattle.text.specs.Output.{at, puts};
ghost use Rattle.cursor.specs.Left.{run_at};
ghost use Rattle.volume.specs.Rule.{hashed_keys};
ghost use Rattle.records.specs.Directory.{entry_at};
ghost use Rattle.lists.specs.Lists.{search_of};
ghost use Rattle.lists.specs.Inner.{readable};
ghost use Rattle.calls.specs.Filled.{filled_at, called_by, answered};
ghost use Rattle.entry_lines.specs.Entries.{lines_of, fitting, entries_on, entries_counted};
ghost use Rattle.entry_lines.specs.Inner.{line_at, filled_from, entries_from};

use cursor::{Step, first, next};
use error::Refusal;
use lines::put_entry_line;
use lists::{Seen, entry_from, entry_in, fewer, search};
use lookup::Counted;
use obj::Reader;
use records::{Entry, entry_name};
use volume::{Volume, Which, open_at};

// The line of an entry after n bytes, where it fits; nothing of an entry that is to be passed. No line is longer than 80 bytes and 6 for
// each byte of its name, so that where as many are left it is not measured first.
fn put_next(
    out: &mut [u8],
    room: usize,
    n: usize,
    image: &[u8],
    reader: Reader,
    left: u64,
    e: Entry,
) -> Result<usize, Refusal>
    requires { n ≤ room }
    ensures { filled_at result out.new ≡ filled_from room n (line_at reader image.now left e) out.old }
{
    if 0 < left {
        return Ok(n);
    }
    if 80 <= room - n {
        if entry_name(reader, image, e).len() <= (room - n - 80) / 6 {
            return put_entry_line(out, room, Ok(n), image, reader, e);
        }
    }
    match put_entry_line(&mut out[..0], room, Ok(n), image, reader, e) {
        Err(w) => Err(w),
        Ok(_) => put_entry_line(out, room, Ok(n), image, reader, e),
    }
}

// How many bytes the lines that fit take, of the entries from a step on.
fn put_entries(
    out: &mut [u8],
    room: usize,
    image: &[u8],
    v: Volume,
    id: u64,
    place: u64,
    start: Step,
) -> usize
    ensures { at out.new result ≡ puts room (fitting room (lines_of v.reader image.now (drop place (readable (entry_at (hashed_keys v) v.reader image.now) (run_at image.now (search_of v id 9) start start.from))))) (at out.old 0) }
{
    let q = search(v, id, 9);
    let keys = q.keys;
    let reader = v.reader;
    let mut n = 0;
    let mut left = place;
    let mut s = start;
    let mut i = s.from;
    loop {
        let at = s.reached;
        match entry_in(image, keys, at, i) {
            Seen::Over => return n,
            Seen::Refused(_) => return n,
            Seen::Passed => {
                let c = s.path;
                s = next(image, q, c, s.level, s.nodes);
                i = s.from;
            }
            Seen::Element(e, after) => match put_next(out, room, n, image, reader, left, e) {
                Err(_) => return n,
                Ok(m) => {
                    n = m;
                    left = fewer(left);
                    i = after;
                }
            },
        }
    }
}

// e is the entry at the place: where its line does not fit, nothing is written.
fn entries_from(
    image: &[u8],
    v: Volume,
    id: u64,
    place: u64,
    e: Entry,
    start: Step,
    out: &mut [u8],
) -> Result<usize, Refusal>
    ensures { filled_at result out.new ≡ entries_from v.reader image.now e (drop place (readable (entry_at (hashed_keys v) v.reader image.now) (run_at image.now (search_of v id 9) start start.from))) out.old }
{
    let room = out.len();
    let reader = v.reader;
    match put_entry_line(&mut out[..0], room, Ok(0), image, reader, e) {
        Err(w) => Err(w),
        Ok(_) => { Ok(put_entries(out, room, image, v, id, place, start)) }
    }
}

// The whole list is read for its faults, then its lines are written in a second walk.
fn entries_on(
    image: &[u8],
    v: Volume,
    id: u64,
    place: u64,
    nodes: u64,
    out: &mut [u8],
) -> Counted<usize>
    ensures { called_by result out.new ≡ answered (entries_on image.now v id place (length out.old) nodes) out.old }
{
    let start = first(image, search(v, id, 9), nodes);
    let found = entry_from(image, v, id, place, start);
    let entry = found.answer;
    match entry {
        Ok(None) => Counted {
            answer: Ok(0),
            nodes: found.nodes,
        },
        Ok(Some(e)) => Counted {
            answer: entries_from(image, v, id, place, e, start, out),
            nodes: found.nodes,
        },
        Err(w) => Counted {
            answer: Err(w),
            nodes: found.nodes,
        },
    }
}

pub fn entries_text(
    image: &[u8],
    which: Which,
    id: u64,
    place: u64,
    out: &mut [u8],
) -> Counted<usize>
    ensures { called_by result out.new ≡ answered (entries_counted image.now which id place (length out.old)) out.old }
{
    let opened = open_at(image, which);
    let volume = opened.answer;
    match volume {
        Ok(v) => entries_on(image, v, id, place, opened.nodes, out),
        Err(w) => Counted {
            answer: Err(w),
            nodes: opened.nodes,
        },
    }
}
