// A node by itself.
ghost use Rattle.std.specs.Prelude.{◌≡◌, length};
ghost use Rattle.cursor.specs.Left.{run_at};
ghost use Rattle.cursor.specs.Way.{Leads};
ghost use Rattle.records.specs.Attribute.{attribute_at};
ghost use Rattle.lists.specs.Lists.{search_of};
ghost use Rattle.lists.specs.Inner.{readable};
ghost use Rattle.tally.specs.Weight.{cap, capped, shown_size, own_weight, tally_told};

use crate::counts::Tally;
use cursor::{Step, Way, next};
use files::size_of;
use inode_record::Inode;
use lists::{Seen, attribute_in, list_on, search};
use volume::Volume;

#[tactic(auto, using(lists::proofs::Reading::less_at, lists::proofs::Reading::less_passed, crate::proofs::Counting::count_over, crate::proofs::Counting::count_no, crate::proofs::Counting::count_passed, crate::proofs::Counting::count_next, crate::proofs::Counting::count_small, crate::proofs::Counting::count_done))]
fn count_attributes(image: &[u8], v: Volume, id: u64, start: Step) -> u64
    ensures { result ≡ cap (length (readable (attribute_at v.reader image.now) (run_at image.now (search_of v id 4) start start.from))) }
{
    let q = search(v, id, 4);
    let keys = q.keys;
    let mut n: u64 = 0;
    let mut s = start;
    let mut i = s.from;
    loop {
        let at = s.reached;
        match attribute_in(image, keys, at, i) {
            Seen::Over | Seen::Refused(_) => return n,
            Seen::Passed => {
                let c = s.path;
                s = next(image, q, c, s.level, s.nodes);
                i = s.from;
            }
            Seen::Element(_, after) => {
                n = n.saturating_add(1);
                i = after;
            }
        }
    }
}

// How many bytes its data form shows.
#[tactic(auto, unfolding(crate::specs::Weight::shown_size, error::specs::Answer::if_eq))]
fn shown_size(i: Inode) -> u64
    ensures { result ≡ shown_size i }
{
    let owner = i.owner;
    if owner.bsd_flags / 32 % 2 == 1 {
        return 0;
    }
    size_of(i)
}

// The inode of an id, on the way down to it.
pub fn own_tally(image: &[u8], v: Volume, id: u64, i: Inode, w: Way) -> Tally
    requires { Leads image.now (search_of v id 3) 0 w }
    ensures { tally_told result ≡ capped (own_weight image.now v id i) }
{
    let attributes = list_on(image, v, id, 4, w, 0);
    Tally {
        nodes: 1,
        bytes: shown_size(i),
        attrs: count_attributes(image, v, id, attributes),
        below: 0,
    }
}
