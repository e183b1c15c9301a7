// The directory entries of an id, by place (fs.rs, `read_dir`).
ghost use Rattle.std.specs.Prelude.{◌≡◌};
ghost use Rattle.cursor.specs.Left.{run_at};
ghost use Rattle.volume.specs.Rule.{hashed_keys};
ghost use Rattle.records.specs.Directory.{entry_at};
ghost use Rattle.lists.specs.Lists.{search_of, list_of, placed, entries_of};

use crate::seen::{Seen, entry_in};
use crate::tree::search;
use cursor::{Step, first, next};
use lookup::Counted;
use records::Entry;
use volume::Volume;

// The whole list from a step on is read, whichever place is asked.
pub fn entry_from(
    image: &[u8],
    v: Volume,
    id: u64,
    place: u64,
    start: Step,
) -> Counted<Option<Entry>>
    ensures { result ≡ placed place (list_of (entry_at (hashed_keys v) v.reader image.now) (run_at image.now (search_of v id 9) start start.from)) }
{
    let q = search(v, id, 9);
    let mut kept = None;
    let mut left = place;
    let mut s = start;
    let mut i = s.from;
    loop {
        match entry_in(image, q.keys, s.reached, i) {
            Seen::Over => {
                return Counted {
                    nodes: s.nodes,
                    answer: Ok(kept),
                };
            }
            Seen::Refused(e) => {
                return Counted {
                    nodes: s.nodes,
                    answer: Err(e),
                };
            }
            Seen::Passed => {
                s = next(image, q, s.path, s.level, s.nodes);
                i = s.from;
            }
            Seen::Element(x, after) => {
                i = after;
                if 0 < left {
                    left -= 1;
                } else {
                    kept = kept.or(Some(x));
                }
            }
        }
    }
}

pub fn entry_at(image: &[u8], v: Volume, id: u64, place: u64, nodes: u64) -> Counted<Option<Entry>>
    ensures { result ≡ placed place (entries_of image.now v id nodes) }
{
    let start = first(image, search(v, id, 9), nodes);
    entry_from(image, v, id, place, start)
}
