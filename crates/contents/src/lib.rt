// Whether the whole of a file can be read, as the listing reads it: no extent may start before the end of the one before it.
#![tactic(auto)]

ghost use Rattle.std.specs.Prelude.{◌≡◌};
ghost use Rattle.cursor.specs.Left.{run_at};
ghost use Rattle.lists.specs.Lists.{search_of};
ghost use Rattle.contents.specs.Inner.{apart_after, apart_of, whole_over, whole_from};

use btree::Search;
use cursor::{Reached, Step, next};
use error::Refusal;
use extents::judge_from;
use files::size_of;
use inode_record::Inode;
use lists::{Seen, extent_in, search};
use lookup::Counted;
use records::Extent;
use volume::Volume;

// The end of an extent may pass 2^64 - 1, so it is not summed.
#[tactic(auto, unfolding(error::specs::Answer::if_le))]
fn apart_after(ruling: Result<(), Refusal>, last: Extent, e: Extent) -> Result<(), Refusal>
    ensures { result ≡ apart_after (ruling) last e }
{
    ruling?;
    if e.logical < last.logical || e.logical - last.logical < last.len {
        return Err(Refusal::Corrupt);
    }
    Ok(())
}

// All extents are read before the first of them is judged.
#[tactic(auto, using(crate::proofs::Laws::aparts), unfolding(crate::specs::Inner::apart_of))]
fn apart(image: &[u8], q: Search, start: Step) -> Counted<()>
    ensures { result ≡ apart_of image.now q (run_at image.now q start start.from) }
{
    let mut ruling = Ok(());
    let mut last = Extent {
        logical: 0,
        len: 0,
        phys_block: 0,
    };
    let mut s = start;
    let mut i = s.from;
    loop {
        match extent_in(image, q.keys, s.reached, i) {
            Seen::Over => {
                return Counted {
                    nodes: s.nodes,
                    answer: ruling,
                };
            }
            Seen::Refused(w) => {
                return Counted {
                    nodes: s.nodes,
                    answer: Err(w),
                };
            }
            Seen::Passed => {
                s = next(image, q, s.path, s.level, s.nodes);
                i = s.from;
            }
            Seen::Element(e, after) => {
                ruling = apart_after(ruling, last, e);
                last = e;
                i = after;
            }
        }
    }
}

#[tactic(auto, using(crate::proofs::Laws::wholes))]
fn whole_over(image: &[u8], q: Search, size: u64, start: Step) -> Counted<()>
    ensures { result ≡ whole_over image.now q size (run_at image.now q start start.from) }
{
    let a = apart(image, q, start);
    if let Err(_) = a.answer {
        return a;
    }
    let j = judge_from(image, q, 0, size, start);
    Counted {
        nodes: j.nodes,
        answer: j.ruling,
    }
}

// Whether the whole of a file that is not compressed can be read, its extents from a step on; where there is none nothing is refused.
#[tactic(auto, using(crate::proofs::Laws::whole_none), unfolding(crate::specs::Inner::whole_from))]
pub fn settle_whole(image: &[u8], v: Volume, inode: Inode, start: Step) -> Counted<()>
    ensures { result ≡ whole_from image.now v inode (run_at image.now (search_of v inode.ids.private_id 8) start start.from) }
{
    if let Reached::End = start.reached {
        return Counted {
            nodes: start.nodes,
            answer: Ok(()),
        };
    }
    let q = search(v, inode.ids.private_id, 8);
    whole_over(image, q, size_of(inode), start)
}
