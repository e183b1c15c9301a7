// A path part after part (fs.rs, `lookup_path`).
ghost use Rattle.std.specs.Prelude.{◌≡◌};
ghost use Rattle.paths.specs.Lookup.{entry_in, part_inode, lookup_path};

use crate::choose::{none_yet, settle, weigh};
use crate::split::{next_part, part_after};
use byte_fields::part;
use cursor::{first, next};
use error::Refusal;
use inode_record::Inode;
use lists::{Seen, entry_in, inode, root, search};
use lookup::Counted;
use records::{Entry, entry_name};
use utf8::is_utf8;
use volume::{Volume, name_rule};

// The entry of a directory that a part names. The whole list is read, so that a fault behind the entry counts.
#[tactic(auto, using(lists::proofs::Reading::less_at, lists::proofs::Reading::less_passed))]
fn entry_named(image: &[u8], v: Volume, id: u64, part: &[u8], nodes: u64) -> Counted<Entry>
    ensures { result ≡ entry_in image.now v id part.now nodes }
{
    let q = search(v, id, 9);
    let keys = q.keys;
    let reader = v.reader;
    let rule = name_rule(v);
    let mut choice = none_yet(rule, part);
    let mut s = first(image, q, nodes);
    let mut i = s.from;
    loop {
        let at = s.reached;
        match entry_in(image, keys, at, i) {
            Seen::Over => {
                return Counted {
                    answer: settle(choice),
                    nodes: s.nodes,
                };
            }
            Seen::Refused(e) => {
                return Counted {
                    answer: Err(e),
                    nodes: s.nodes,
                };
            }
            Seen::Passed => {
                let c = s.path;
                s = next(image, q, c, s.level, s.nodes);
                i = s.from;
            }
            Seen::Element(x, after) => {
                choice = weigh(rule, choice, entry_name(reader, image, x), part, x);
                i = after;
            }
        }
    }
}

// The inode that a part leads to from the directory of an id.
#[tactic(auto, unfolding(crate::specs::Lookup::part_inode))]
fn enter(image: &[u8], v: Volume, id: u64, part: &[u8], nodes: u64) -> Counted<Inode>
    ensures { result ≡ part_inode image.now v part.now id nodes }
{
    let found = entry_named(image, v, id, part, nodes);
    match found.answer {
        Ok(e) => inode(image, v, e.file_id, found.nodes),
        Err(e) => Counted {
            answer: Err(e),
            nodes: found.nodes,
        },
    }
}

// The inode that a path leads to from the root.
#[tactic(auto, using(crate::proofs::Walking::not_utf8, crate::proofs::Walking::walk_done, crate::proofs::Walking::walk_stops, crate::proofs::Walking::walk_less))]
pub fn lookup_path(image: &[u8], v: Volume, path: &[u8], nodes: u64) -> Counted<Inode>
    ensures { result ≡ lookup_path image.now v path.now nodes }
{
    if !is_utf8(path) {
        return Counted {
            answer: Err(Refusal::PathNotUtf8),
            nodes,
        };
    }
    let mut found = root(image, v, nodes);
    let mut p = next_part(path, 0);
    while 0 < p.len {
        let Ok(dir) = found.answer else {
            return found;
        };
        found = enter(image, v, dir.id, part(path, p), found.nodes);
        p = part_after(path, p);
    }
    found
}
