// The bytes of a stream in hexadecimal, an extent after the other.
ghost use Rattle.std.specs.Prelude.{◌≡◌, [], ◌*◌, min, max, length, replicate};
ghost use Rattle.text.specs.Output.{output_of, puts};
ghost use Rattle.text.specs.Words.{pairs};
ghost use Rattle.cursor.specs.Left.{run_at};
ghost use Rattle.records.specs.Extent.{extent_at};
ghost use Rattle.lists.specs.Lists.{search_of};
ghost use Rattle.extents.specs.Extents.{disk_of};
ghost use Rattle.streams.specs.Inner.{taken, step_bytes, run_bytes, stream_bytes};

use crate::copies::put_copies;
use crate::step::{next_pos, wanted};
use byte_fields::{Span, part};
use cursor::{Step, first, next};
use error::Refusal;
use extents::block_size;
use lists::{Seen, extent_in, search};
use obj::Reader;
use records::Extent;
use text::put_hex;
use volume::Volume;

// Zeros, two digits each.
fn put_zeros(
    out: &mut [u8],
    room: usize,
    p: Result<usize, Refusal>,
    n: u64,
) -> Result<usize, Refusal>
    ensures { output_of result out.new ≡ puts room (pairs (replicate n 0) []) (output_of p out.old) }
{
    p?;
    if room as u64 / 2 < n {
        return Err(Refusal::BufferTooShort);
    }
    put_copies(out, room, p, b'0', 2 * n)
}

// Where block p begins in the image, or its end.
pub fn begins(image: &[u8], reader: Reader, p: u64) -> usize
    ensures { result ≡ min (p * max 1 reader.block_size) (length image.now) }
{
    p.saturating_mul(block_size(reader)).min(image.len() as u64) as usize
}

// The first n bytes of an extent.
#[tactic(auto, using(crate::proofs::Pouring::drop_least), unfolding(crate::specs::Inner::taken, byte_fields::specs::Part::part_of, error::specs::Answer::if_eq))]
fn put_taken(
    out: &mut [u8],
    room: usize,
    p: Result<usize, Refusal>,
    image: &[u8],
    reader: Reader,
    e: Extent,
    n: u64,
) -> Result<usize, Refusal>
    ensures { output_of result out.new ≡ puts room (pairs (taken (disk_of reader image.now) e n) []) (output_of p out.old) }
{
    if e.phys_block == 0 {
        return put_zeros(out, room, p, n);
    }
    let span = Span {
        start: begins(image, reader, e.phys_block),
        len: n as usize,
    };
    put_hex(out, room, p, part(image, span))
}

// The gap before an extent, and its bytes.
#[tactic(auto, using(crate::proofs::Pouring::pairs_then), unfolding(crate::specs::Inner::step_bytes, text::specs::Output::puts, text::specs::Words::pairs, error::specs::Answer::if_le))]
fn put_step(
    out: &mut [u8],
    room: usize,
    p: Result<usize, Refusal>,
    image: &[u8],
    reader: Reader,
    size: u64,
    pos: u64,
    e: Extent,
) -> Result<usize, Refusal>
    ensures { output_of result out.new ≡ puts room (pairs (step_bytes (disk_of reader image.now) size pos e) []) (output_of p out.old) }
{
    if size <= pos {
        return p;
    }
    let gap = e.logical.min(size).saturating_sub(pos);
    let q = put_zeros(out, room, p, gap);
    put_taken(out, room, q, image, reader, e, wanted(size, e))
}

// All bytes of a stream, its extents from a step on; what an unread extent would give is left out.
#[tactic(auto, using(lists::proofs::Turns::turns))]
pub fn put_stream_from(
    out: &mut [u8],
    room: usize,
    p: Result<usize, Refusal>,
    image: &[u8],
    v: Volume,
    object: u64,
    size: u64,
    start: Step,
) -> Result<usize, Refusal>
    ensures { output_of result out.new ≡ puts room (pairs (run_bytes (extent_at v.reader image.now) (disk_of v.reader image.now) size 0 (run_at image.now (search_of v object 8) start start.from)) []) (output_of p out.old) }
{
    let q = search(v, object, 8);
    let reader = v.reader;
    let mut at = p?;
    let mut pos: u64 = 0;
    let mut s = start;
    let mut i = s.from;
    loop {
        match extent_in(image, q.keys, s.reached, i) {
            Seen::Over => return put_zeros(out, room, Ok(at), size.saturating_sub(pos)),
            Seen::Refused(_) => return Ok(at),
            Seen::Passed => {
                s = next(image, q, s.path, s.level, s.nodes);
                i = s.from;
            }
            Seen::Element(e, after) => {
                at = put_step(out, room, Ok(at), image, reader, size, pos, e)?;
                pos = next_pos(size, pos, e);
                i = after;
            }
        }
    }
}

#[tactic(auto, unfolding(crate::specs::Inner::stream_bytes))]
pub fn put_stream_hex(
    out: &mut [u8],
    room: usize,
    p: Result<usize, Refusal>,
    image: &[u8],
    v: Volume,
    object: u64,
    size: u64,
    nodes: u64,
) -> Result<usize, Refusal>
    ensures { output_of result out.new ≡ puts room (pairs (stream_bytes image.now v object size nodes) []) (output_of p out.old) }
{
    let start = first(image, search(v, object, 8), nodes);
    put_stream_from(out, room, p, image, v, object, size, start)
}
