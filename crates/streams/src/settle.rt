// Whether a stream can be read: no byte is written before all is decided.
ghost use Rattle.std.specs.Prelude.{◌≡◌};
ghost use Rattle.extents.specs.Extents.{disk_of};
ghost use Rattle.streams.specs.Inner.{step_after};
ghost use Rattle.streams.specs.Streams.{settled_of};

use crate::step::{next_pos, step_at};
use cursor::{first, next};
use error::Refusal;
use lists::{Seen, extent_in, search};
use lookup::Counted;
use obj::Reader;
use records::Extent;
use volume::Volume;

// The first refusal stays.
fn step_after(
    ruling: Result<(), Refusal>,
    image: &[u8],
    reader: Reader,
    size: u64,
    pos: u64,
    e: Extent,
) -> Result<(), Refusal>
    ensures { result ≡ step_after ruling (disk_of reader image.now) size pos e }
{
    ruling?;
    step_at(image, reader, size, pos, e)
}

// All extents of the stream are read before the first of them is judged.
#[tactic(auto, using(crate::proofs::Laws::settles))]
pub fn settle_stream(image: &[u8], v: Volume, object: u64, size: u64, nodes: u64) -> Counted<()>
    ensures { result ≡ settled_of image.now v object size nodes }
{
    let q = search(v, object, 8);
    let reader = v.reader;
    let mut ruling = Ok(());
    let mut pos: u64 = 0;
    let mut s = first(image, q, nodes);
    let mut i = s.from;
    let answer = loop {
        match extent_in(image, q.keys, s.reached, i) {
            Seen::Over => break ruling,
            Seen::Refused(w) => break Err(w),
            Seen::Passed => {
                s = next(image, q, s.path, s.level, s.nodes);
                i = s.from;
            }
            Seen::Element(e, after) => {
                ruling = step_after(ruling, image, reader, size, pos, e);
                pos = next_pos(size, pos, e);
                i = after;
            }
        }
    };
    Counted {
        nodes: s.nodes,
        answer,
    }
}
