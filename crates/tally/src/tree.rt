// A node and all below it. What can't be read counts for nothing: a listing has been refused for it.
ghost use Rattle.std.specs.Prelude.{◌≡◌};
ghost use Rattle.tally.specs.Weight.{capped, weight, tally_told};

use crate::counts::{Tally, with_entry};
use crate::own::own_tally;
use cursor::next;
use lists::{Seen, entry_in, inode_on, inode_way, list_on, search};
use volume::Volume;

// The node of an id, with as many levels as `levels` from it on.
pub fn tally_node(image: &[u8], v: Volume, id: u64, levels: u32) -> Tally
    ensures { tally_told result ≡ capped (weight image.now v levels id) }
{
    let none = Tally {
        nodes: 0,
        bytes: 0,
        attrs: 0,
        below: 0,
    };
    if levels == 0 {
        return none;
    }
    let way = inode_way(image, v, id, 0);
    let Ok(i) = inode_on(image, v, id, way, 0).answer else {
        return none;
    };
    let q = search(v, id, 9);
    let keys = q.keys;
    let mut s = list_on(image, v, id, 9, way, 0);
    let mut t = own_tally(image, v, id, i, way);
    let mut k = s.from;
    loop {
        let at = s.reached;
        match entry_in(image, keys, at, k) {
            Seen::Over | Seen::Refused(_) => return t,
            Seen::Passed => {
                let c = s.path;
                s = next(image, q, c, s.level, s.nodes);
                k = s.from;
            }
            Seen::Element(e, after) => {
                t = with_entry(t, tally_node(image, v, e.file_id, levels - 1));
                k = after;
            }
        }
    }
}
