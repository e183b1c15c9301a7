// How many parts of a link's text were replaced: document 02, request 02.
ghost use Rattle.std.specs.Prelude.{◌≡◌, true};
ghost use Rattle.byte_fields.specs.Part.{up_to_zero};
ghost use Rattle.text.specs.Output.{at, output_of, puts};
ghost use Rattle.feed.specs.Fed.{written_as};
ghost use Rattle.streams.specs.Streams.{stream_of};
ghost use Rattle.streams.specs.Inner.{stream_bytes};
ghost use Rattle.links.specs.Link.{contents_of, link_reading, replaced_of};
ghost use Rattle.links.specs.Inner.{counted_in};

use crate::named::link_attribute;
use crate::pour::push_stream;
use crate::raw::{feed_begin, feed_end};
use byte_fields::cstr;
use calls::number_at;
use error::Refusal;
use inode_record::Inode;
use lookup::Counted;
use records::{Attribute, AttributeData, attribute_bytes};
use streams::settle_stream;
use utf8::replaced_parts;
use volume::Volume;

const ROOM: usize = usize::MAX;

// A mark for each part that is replaced in the bytes of a stream.
#[tactic(auto, using(crate::proofs::Targets::contents_put), unfolding(crate::specs::Inner::begun_as))]
fn put_marks(
    out: &mut [u8],
    image: &[u8],
    v: Volume,
    object: u64,
    size: u64,
    nodes: u64,
) -> Result<usize, Refusal>
    ensures { output_of result out.new ≡ puts 18446744073709551615 (written_as true (up_to_zero (stream_bytes image.now v object size nodes))) (at out.old 0) }
{
    let f = feed_begin(false, true);
    let g = push_stream(out, ROOM, false, f, image, v, object, size, nodes);
    feed_end(out, ROOM, false, g)
}

// No mark is stored: there are no more of them than the stream has bytes.
#[tactic(auto, using(crate::proofs::Counting::stream_counted, crate::proofs::Counting::stream_uncounted))]
fn stream_replaced(image: &[u8], v: Volume, object: u64, size: u64, nodes: u64) -> Counted<u64>
    ensures { result ≡ counted_in (stream_of image.now v object size nodes) }
{
    let s = settle_stream(image, v, object, size, nodes);
    match s.answer {
        Ok(()) => {
            let mut none = [0u8; 1];
            Counted {
                answer: number_at(put_marks(&mut none[..0], image, v, object, size, nodes)),
                nodes: s.nodes,
            }
        }
        Err(e) => Counted {
            answer: Err(e),
            nodes: s.nodes,
        },
    }
}

#[tactic(auto, unfolding(crate::specs::Link::contents_by))]
fn contents_replaced(image: &[u8], v: Volume, a: Attribute, nodes: u64) -> Counted<u64>
    ensures { result ≡ counted_in (contents_of image.now v a nodes) }
{
    match a.contents {
        AttributeData::Embedded(span) => {
            let text = cstr(attribute_bytes(v.reader, image, a.place, span));
            Counted {
                answer: Ok(replaced_parts(text) as u64),
                nodes: nodes,
            }
        }
        AttributeData::Stream(d) => stream_replaced(image, v, d.object, d.size, nodes),
    }
}

// Of a symbolic link's text.
#[tactic(auto, using(crate::proofs::Counting::link_uncounted))]
pub fn link_replaced(image: &[u8], v: Volume, inode: Inode, nodes: u64) -> Counted<u64>
    ensures { result ≡ replaced_of (link_reading image.now v inode nodes) }
{
    let f = link_attribute(image, v, inode, nodes);
    match f.answer {
        Ok(a) => contents_replaced(image, v, a, f.nodes),
        Err(e) => Counted {
            answer: Err(e),
            nodes: f.nodes,
        },
    }
}
