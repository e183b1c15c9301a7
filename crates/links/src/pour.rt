// The bytes of a stream, fed an extent after the other.
ghost use Rattle.std.specs.Prelude.{◌≡◌, List, ◌++◌, ℕ};
ghost use Rattle.extents.specs.Extents.{disk_of};
ghost use Rattle.streams.specs.Inner.{taken, step_bytes, stream_bytes};
ghost use Rattle.links.specs.Inner.{fed_as};

use crate::raw::{feed_all, feed_zeros};
use byte_fields::{Span, part};
use cursor::{first, next};
use feed::Feed;
use lists::{Seen, extent_in, search};
use obj::Reader;
use records::Extent;
use streams::{begins, next_pos, wanted};
use volume::Volume;

// The first n bytes of an extent.
#[tactic(auto, using(streams::proofs::Pouring::drop_least), unfolding(streams::specs::Inner::taken, byte_fields::specs::Part::part_of, error::specs::Answer::if_eq))]
fn push_taken(
    out: &mut [u8],
    room: usize,
    raw: bool,
    f: Feed,
    image: &[u8],
    reader: Reader,
    e: Extent,
    n: u64,
) -> Feed
    ensures { (xs : List ℕ) → fed_as raw room result out.new xs ≡ fed_as raw room f out.old (taken (disk_of reader image.now) e n ++ xs) }
{
    if e.phys_block == 0 {
        return feed_zeros(out, room, raw, f, n);
    }
    let span = Span {
        start: begins(image, reader, e.phys_block),
        len: n as usize,
    };
    feed_all(out, room, raw, f, part(image, span))
}

// The gap before an extent, and its bytes.
#[tactic(auto, unfolding(streams::specs::Inner::step_bytes, error::specs::Answer::if_le))]
fn push_step(
    out: &mut [u8],
    room: usize,
    raw: bool,
    f: Feed,
    image: &[u8],
    reader: Reader,
    size: u64,
    pos: u64,
    e: Extent,
) -> Feed
    ensures { (xs : List ℕ) → fed_as raw room result out.new xs ≡ fed_as raw room f out.old (step_bytes (disk_of reader image.now) size pos e ++ xs) }
{
    if size <= pos {
        return f;
    }
    let gap = e.logical.min(size).saturating_sub(pos);
    let g = feed_zeros(out, room, raw, f, gap);
    push_taken(out, room, raw, g, image, reader, e, wanted(size, e))
}

// All bytes of a stream.
#[tactic(auto, using(crate::proofs::Pouring::pouring))]
pub fn push_stream(
    out: &mut [u8],
    room: usize,
    raw: bool,
    f: Feed,
    image: &[u8],
    v: Volume,
    object: u64,
    size: u64,
    nodes: u64,
) -> Feed
    ensures { (xs : List ℕ) → fed_as raw room result out.new xs ≡ fed_as raw room f out.old (stream_bytes image.now v object size nodes ++ xs) }
{
    let q = search(v, object, 8);
    let reader = v.reader;
    let mut g = f;
    let mut pos: u64 = 0;
    let mut s = first(image, q, nodes);
    let mut i = s.from;
    loop {
        match extent_in(image, q.keys, s.reached, i) {
            Seen::Over => return feed_zeros(out, room, raw, g, size.saturating_sub(pos)),
            Seen::Refused(_) => return g,
            Seen::Passed => {
                s = next(image, q, s.path, s.level, s.nodes);
                i = s.from;
            }
            Seen::Element(e, after) => {
                g = push_step(out, room, raw, g, image, reader, size, pos, e);
                pos = next_pos(size, pos, e);
                i = after;
            }
        }
    }
}
