// The attributes of an id, by place (fs.rs, `xattrs`).
ghost use Rattle.std.specs.Prelude.{◌≡◌};
ghost use Rattle.cursor.specs.Left.{run_at};
ghost use Rattle.records.specs.Attribute.{attribute_at};
ghost use Rattle.lists.specs.Lists.{search_of, list_of, placed, attributes_of};

use crate::seen::{Seen, attribute_in};
use crate::tree::search;
use cursor::{Step, first, next};
use lookup::Counted;
use records::Attribute;
use volume::Volume;

// The whole list from a step on is read, whichever place is asked.
pub fn attribute_from(
    image: &[u8],
    v: Volume,
    id: u64,
    place: u64,
    start: Step,
) -> Counted<Option<Attribute>>
    ensures { result ≡ placed place (list_of (attribute_at v.reader image.now) (run_at image.now (search_of v id 4) start start.from)) }
{
    let q = search(v, id, 4);
    let mut kept = None;
    let mut left = place;
    let mut s = start;
    let mut i = s.from;
    loop {
        match attribute_in(image, q.keys, s.reached, i) {
            Seen::Over => {
                return Counted {
                    nodes: s.nodes,
                    answer: Ok(kept),
                };
            }
            Seen::Refused(e) => {
                return Counted {
                    nodes: s.nodes,
                    answer: Err(e),
                };
            }
            Seen::Passed => {
                s = next(image, q, s.path, s.level, s.nodes);
                i = s.from;
            }
            Seen::Element(x, after) => {
                i = after;
                if 0 < left {
                    left -= 1;
                } else {
                    kept = kept.or(Some(x));
                }
            }
        }
    }
}

pub fn attribute_at(
    image: &[u8],
    v: Volume,
    id: u64,
    place: u64,
    nodes: u64,
) -> Counted<Option<Attribute>>
    ensures { result ≡ placed place (attributes_of image.now v id nodes) }
{
    let start = first(image, search(v, id, 4), nodes);
    attribute_from(image, v, id, place, start)
}
