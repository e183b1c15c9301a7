// The line of an attribute with its contents, by place.
#![tactic(auto)]

ghost use Rattle.std.specs.Prelude.{◌≡◌, []};
ghost use Rattle.records.specs.Attribute.{attribute_bytes};
ghost use Rattle.lines.specs.Shown.{attribute_shown};
ghost use Rattle.lines.specs.Lines.{attribute_line};
ghost use Rattle.streams.specs.Inner.{stream_bytes};
ghost use Rattle.calls.specs.Filled.{filled_at, filled, called_by, answered};
ghost use Rattle.attribute_lines.specs.Attributes.{streamed_of, attribute_of, attribute_on, attribute_counted};

use byte_fields::Span;
use error::Refusal;
use forms::put_streamed;
use lines::put_attribute_embedded;
use lists::attribute_at;
use lookup::Counted;
use obj::Reader;
use records::{Attribute, AttributeData, StreamData};
use streams::settle_stream;
use volume::{Volume, Which, open_at};

// Measured first: a buffer that is too short is left as it was.
fn show_embedded(
    image: &[u8],
    reader: Reader,
    a: Attribute,
    span: Span,
    out: &mut [u8],
) -> Result<usize, Refusal>
    ensures { filled_at result out.new ≡ filled (attribute_line (attribute_shown reader image.now a (attribute_bytes reader image.now a.place span)) []) out.old }
{
    let room = out.len();
    match put_attribute_embedded(&mut out[..0], room, Ok(0), image, reader, a, span) {
        Err(w) => Err(w),
        Ok(_) => { put_attribute_embedded(out, room, Ok(0), image, reader, a, span) }
    }
}

fn show_streamed(
    image: &[u8],
    v: Volume,
    a: Attribute,
    d: StreamData,
    nodes: u64,
    out: &mut [u8],
) -> Result<usize, Refusal>
    ensures { filled_at result out.new ≡ filled (attribute_line (attribute_shown v.reader image.now a (stream_bytes image.now v d.object d.size nodes)) []) out.old }
{
    let room = out.len();
    match put_streamed(&mut out[..0], room, Ok(0), image, v, a, d, nodes) {
        Err(w) => Err(w),
        Ok(_) => put_streamed(out, room, Ok(0), image, v, a, d, nodes),
    }
}

// The stream's own faults come before a buffer that is too short.
fn streamed_of(
    image: &[u8],
    v: Volume,
    a: Attribute,
    d: StreamData,
    nodes: u64,
    out: &mut [u8],
) -> Counted<usize>
    ensures { called_by result out.new ≡ answered (streamed_of image.now v a d nodes) out.old }
{
    let settled = settle_stream(image, v, d.object, d.size, nodes);
    let ruling = settled.answer;
    match ruling {
        Ok(()) => Counted {
            answer: show_streamed(image, v, a, d, nodes, out),
            nodes: settled.nodes,
        },
        Err(w) => Counted {
            answer: Err(w),
            nodes: settled.nodes,
        },
    }
}

fn attribute_of(image: &[u8], v: Volume, a: Attribute, nodes: u64, out: &mut [u8]) -> Counted<usize>
    ensures { called_by result out.new ≡ answered (attribute_of image.now v a nodes) out.old }
{
    let reader = v.reader;
    let contents = a.contents;
    match contents {
        AttributeData::Embedded(span) => Counted {
            answer: show_embedded(image, reader, a, span, out),
            nodes: nodes,
        },
        AttributeData::Stream(d) => streamed_of(image, v, a, d, nodes, out),
    }
}

fn attribute_on(
    image: &[u8],
    v: Volume,
    id: u64,
    place: u64,
    nodes: u64,
    out: &mut [u8],
) -> Counted<usize>
    ensures { called_by result out.new ≡ answered (attribute_on image.now v id place nodes) out.old }
{
    let found = attribute_at(image, v, id, place, nodes);
    let attribute = found.answer;
    match attribute {
        Ok(None) => Counted {
            answer: Ok(0),
            nodes: found.nodes,
        },
        Ok(Some(a)) => attribute_of(image, v, a, found.nodes, out),
        Err(w) => Counted {
            answer: Err(w),
            nodes: found.nodes,
        },
    }
}

pub fn attribute_text(
    image: &[u8],
    which: Which,
    id: u64,
    place: u64,
    out: &mut [u8],
) -> Counted<usize>
    ensures { called_by result out.new ≡ answered (attribute_counted image.now which id place) out.old }
{
    let opened = open_at(image, which);
    let volume = opened.answer;
    match volume {
        Ok(v) => attribute_on(image, v, id, place, opened.nodes, out),
        Err(w) => Counted {
            answer: Err(w),
            nodes: opened.nodes,
        },
    }
}
