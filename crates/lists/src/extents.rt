// The extents of an id, and of a file, by place (fs.rs, `extents`, `file_extents`).
ghost use Rattle.std.specs.Prelude.{◌≡◌};
ghost use Rattle.cursor.specs.Left.{run_at};
ghost use Rattle.records.specs.Extent.{extent_at};
ghost use Rattle.lists.specs.Lists.{search_of, list_of, placed, extents_of, file_extents};

use crate::seen::{Seen, extent_in};
use crate::tree::search;
use cursor::{Step, first, next};
use error::Refusal;
use inode_record::Inode;
use lookup::Counted;
use records::Extent;
use volume::Volume;

// The whole list from a step on is read, whichever place is asked.
pub fn extent_from(
    image: &[u8],
    v: Volume,
    id: u64,
    place: u64,
    start: Step,
) -> Counted<Option<Extent>>
    ensures { result ≡ placed place (list_of (extent_at v.reader image.now) (run_at image.now (search_of v id 8) start start.from)) }
{
    let q = search(v, id, 8);
    let mut kept = None;
    let mut left = place;
    let mut s = start;
    let mut i = s.from;
    loop {
        match extent_in(image, q.keys, s.reached, i) {
            Seen::Over => {
                return Counted {
                    nodes: s.nodes,
                    answer: Ok(kept),
                };
            }
            Seen::Refused(e) => {
                return Counted {
                    nodes: s.nodes,
                    answer: Err(e),
                };
            }
            Seen::Passed => {
                s = next(image, q, s.path, s.level, s.nodes);
                i = s.from;
            }
            Seen::Element(x, after) => {
                i = after;
                if 0 < left {
                    left -= 1;
                } else {
                    kept = kept.or(Some(x));
                }
            }
        }
    }
}

pub fn extent_at(
    image: &[u8],
    v: Volume,
    id: u64,
    place: u64,
    nodes: u64,
) -> Counted<Option<Extent>>
    ensures { result ≡ placed place (extents_of image.now v id nodes) }
{
    let start = first(image, search(v, id, 8), nodes);
    extent_from(image, v, id, place, start)
}

// As they are stored.
#[tactic(auto, unfolding(crate::specs::Lists::file_extents, error::specs::Answer::if_le, error::specs::Answer::if_eq))]
pub fn file_extents(
    image: &[u8],
    v: Volume,
    i: Inode,
    place: u64,
    nodes: u64,
) -> Counted<Option<Extent>>
    ensures { result ≡ file_extents image.now v i place nodes }
{
    let owner = i.owner;
    let ids = i.ids;
    if owner.bsd_flags / 32 % 2 == 1 {
        return Counted {
            nodes: nodes,
            answer: Err(Refusal::Unsupported),
        };
    }
    extent_at(image, v, ids.private_id, place, nodes)
}
