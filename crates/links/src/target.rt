// The contents of an attribute, as they are or read as a text.
ghost use Rattle.std.specs.Prelude.{◌≡◌, List, ◌++◌, ℕ};
ghost use Rattle.text.specs.Output.{at, output_of, puts};
ghost use Rattle.calls.specs.Filled.{filled};
ghost use Rattle.links.specs.Inner.{fed_as, read_as, settled_contents, content_bytes};

use crate::pour::push_stream;
use crate::raw::{feed_all, feed_begin, feed_end};
use calls::number_at;
use error::Refusal;
use feed::Feed;
use lookup::Counted;
use records::{Attribute, AttributeData, attribute_bytes};
use streams::settle_stream;
use volume::Volume;

// Whether the contents can be read.
#[tactic(auto, unfolding(crate::specs::Inner::settled_by))]
pub fn settle_contents(image: &[u8], v: Volume, a: Attribute, nodes: u64) -> Counted<()>
    ensures { result ≡ settled_contents image.now v a nodes }
{
    match a.contents {
        AttributeData::Embedded(_) => Counted {
            answer: Ok(()),
            nodes: nodes,
        },
        AttributeData::Stream(d) => settle_stream(image, v, d.object, d.size, nodes),
    }
}

#[tactic(auto, unfolding(crate::specs::Inner::bytes_by))]
fn push_contents(
    out: &mut [u8],
    room: usize,
    raw: bool,
    f: Feed,
    image: &[u8],
    v: Volume,
    a: Attribute,
    nodes: u64,
) -> Feed
    ensures { (xs : List ℕ) → fed_as raw room result out.new xs ≡ fed_as raw room f out.old (content_bytes image.now v a nodes ++ xs) }
{
    match a.contents {
        AttributeData::Embedded(span) => {
            let bytes = attribute_bytes(v.reader, image, a.place, span);
            feed_all(out, room, raw, f, bytes)
        }
        AttributeData::Stream(d) => {
            push_stream(out, room, raw, f, image, v, d.object, d.size, nodes)
        }
    }
}

// From the buffer's start on.
#[tactic(auto, using(crate::proofs::Targets::contents_put))]
fn put_contents(
    out: &mut [u8],
    room: usize,
    raw: bool,
    image: &[u8],
    v: Volume,
    a: Attribute,
    nodes: u64,
) -> Result<usize, Refusal>
    ensures { output_of result out.new ≡ puts room (read_as raw (content_bytes image.now v a nodes)) (at out.old 0) }
{
    let f = feed_begin(raw, false);
    let g = push_contents(out, room, raw, f, image, v, a, nodes);
    feed_end(out, room, raw, g)
}

// Measured first: a buffer that is too short is left as it was.
#[tactic(auto, using(calls::proofs::Filling::filled_short, calls::proofs::Filling::filled_written, calls::proofs::Filling::filled_told))]
pub fn show(
    image: &[u8],
    v: Volume,
    a: Attribute,
    raw: bool,
    out: &mut [u8],
    nodes: u64,
) -> Result<u64, Refusal>
    ensures { record { answer = result; buffer = out.new } ≡ filled (read_as raw (content_bytes image.now v a nodes)) out.old }
{
    let room = out.len();
    put_contents(&mut out[..0], room, raw, image, v, a, nodes)?;
    number_at(put_contents(out, room, raw, image, v, a, nodes))
}
