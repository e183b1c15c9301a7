// The deciding pass: all extents of a file are read, and no byte of the buffer is written.
ghost use Rattle.std.specs.Prelude.{◌≡◌, false, leb};
ghost use Rattle.error.specs.Answer.{pick, if_le};
ghost use Rattle.btree.specs.Scan.{scan_of};
ghost use Rattle.cursor.specs.Left.{run_at};
ghost use Rattle.extents.specs.Extents.{disk_of};
ghost use Rattle.extents.specs.Inner.{OneMore, closing, judged_told, judged_of};

use crate::verdict::touches_at;
use btree::Search;
use cursor::{Step, first, next};
use error::Refusal;
use lists::{Seen, extent_in};
use obj::Reader;
use records::Extent;

// What is known of the extents so far: the last start, whether the starts ascend, and the verdict of those since the offset.
#[derive(Clone, Copy)]
pub struct Judging {
    pub last: u64,
    pub rises: bool,
    pub ruling: Result<(), Refusal>,
}

// What is known before the first extent.
const BEGUN: Judging = Judging {
    last: 0,
    rises: true,
    ruling: Ok(()),
};

// The verdict of all, the step and the entry of the last extent at or before the offset (or of the first), and the nodes gone through.
#[derive(Clone, Copy)]
pub struct Judged {
    pub ruling: Result<(), Refusal>,
    pub kept: Step,
    pub from: u32,
    pub nodes: u64,
}

#[tactic(auto, unfolding(error::specs::Answer::if_le))]
fn one_more(image: &[u8], reader: Reader, off: u64, stop: u64, j: Judging, e: Extent) -> Judging
    ensures { OneMore (disk_of reader image.now) off stop j e result }
{
    let one = touches_at(image, reader, off, stop, e);
    Judging {
        last: e.logical,
        rises: j.rises && j.last <= e.logical,
        ruling: if e.logical <= off {
            one
        } else {
            j.ruling.and(one)
        },
    }
}

fn closed(j: Judging) -> Result<(), Refusal>
    ensures { result ≡ closing j }
{
    if j.rises {
        return j.ruling;
    }
    Err(Refusal::Corrupt)
}

// The extents from the last one that begins at or before the offset on are read.
fn begins_by(e: Extent, off: u64) -> bool
    ensures { result ≡ leb e.logical off }
{
    e.logical <= off
}

// The extents from a step on.
#[tactic(auto, using(crate::proofs::JudgeTurns::turns))]
pub fn judge_from(image: &[u8], q: Search, off: u64, stop: u64, start: Step) -> Judged
    ensures { judged_told image.now q result ≡ judged_of image.now q off stop (run_at image.now q start start.from) }
{
    let mut j = BEGUN;
    let mut s = start;
    let mut i = s.from;
    let mut kept = s;
    let mut from = i;
    let mut here = true;
    let ruling = loop {
        match extent_in(image, q.keys, s.reached, i) {
            Seen::Over => break closed(j),
            Seen::Refused(w) => break Err(w),
            Seen::Passed => {
                if here {
                    kept = s;
                }
                here = false;
                s = next(image, q, s.path, s.level, s.nodes);
                i = s.from;
            }
            Seen::Element(e, after) => {
                j = one_more(image, q.keys.reader, off, stop, j, e);
                if begins_by(e, off) {
                    here = true;
                    from = i;
                }
                i = after;
            }
        }
    };
    Judged {
        ruling,
        kept: if here { s } else { kept },
        from,
        nodes: s.nodes,
    }
}

#[tactic(auto, using(crate::proofs::JudgeTurns::judge_whole))]
pub fn judge(image: &[u8], q: Search, off: u64, stop: u64, nodes: u64) -> Judged
    ensures { judged_told image.now q result ≡ judged_of image.now q off stop (scan_of image.now q nodes) }
{
    judge_from(image, q, off, stop, first(image, q, nodes))
}
