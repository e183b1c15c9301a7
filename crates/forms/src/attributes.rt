// The attributes of a node, a line each.
ghost use Rattle.std.specs.Prelude.{◌≡◌, []};
ghost use Rattle.text.specs.Output.{output_of, puts};
ghost use Rattle.cursor.specs.Left.{run_at};
ghost use Rattle.records.specs.Attribute.{attribute_at};
ghost use Rattle.lists.specs.Lists.{search_of};
ghost use Rattle.lists.specs.Inner.{readable};
ghost use Rattle.lines.specs.Shown.{attribute_shown};
ghost use Rattle.lines.specs.Lines.{attribute_line};
ghost use Rattle.streams.specs.Inner.{stream_bytes};
ghost use Rattle.forms.specs.Course.{attribute_course, attribute_courses};
ghost use Rattle.forms.specs.Inner.{go, stand_of, stream_course};

use crate::reading::read;
use cursor::{Step, next};
use error::Refusal;
use lines::{put_attribute_embedded, put_attribute_head};
use lists::{Seen, attribute_in, search};
use lookup::Counted;
use records::{Attribute, AttributeData, StreamData};
use streams::{put_stream_hex, settle_stream};
use text::put_all;
use volume::Volume;

// A line with a stream's bytes, where the stream can be read.
pub fn put_streamed(
    out: &mut [u8],
    room: usize,
    p: Result<usize, Refusal>,
    image: &[u8],
    v: Volume,
    a: Attribute,
    d: StreamData,
    nodes: u64,
) -> Result<usize, Refusal>
    ensures { output_of result out.new ≡ puts room (attribute_line (attribute_shown v.reader image.now a (stream_bytes image.now v d.object d.size nodes)) []) (output_of p out.old) }
{
    let reader = v.reader;
    let head = put_attribute_head(out, room, p, image, reader, a);
    let bytes = put_stream_hex(out, room, head, image, v, d.object, d.size, nodes);
    put_all(out, room, bytes, b")\n")
}

fn put_stream(
    out: &mut [u8],
    room: usize,
    p: Counted<usize>,
    image: &[u8],
    v: Volume,
    a: Attribute,
    d: StreamData,
) -> Counted<usize>
    ensures { stand_of result out.new ≡ go room (stream_course image.now v a d) (stand_of p out.old) }
{
    let s = settle_stream(image, v, d.object, d.size, 0);
    let q = read(p, s);
    let at = q.answer;
    if let Err(_) = at {
        return q;
    }
    Counted {
        answer: put_streamed(out, room, at, image, v, a, d, 0),
        nodes: q.nodes,
    }
}

fn put_attribute(
    out: &mut [u8],
    room: usize,
    p: Counted<usize>,
    image: &[u8],
    v: Volume,
    a: Attribute,
) -> Counted<usize>
    ensures { stand_of result out.new ≡ go room (attribute_course image.now v a) (stand_of p out.old) }
{
    let at = p.answer;
    let reader = v.reader;
    let contents = a.contents;
    match contents {
        AttributeData::Embedded(span) => Counted {
            answer: put_attribute_embedded(out, room, at, image, reader, a, span),
            nodes: p.nodes,
        },
        AttributeData::Stream(d) => put_stream(out, room, p, image, v, a, d),
    }
}

// The attributes from a step on. Nothing is read once the position is refused.
pub fn put_attributes(
    out: &mut [u8],
    room: usize,
    p: Counted<usize>,
    image: &[u8],
    v: Volume,
    id: u64,
    start: Step,
) -> Counted<usize>
    ensures { stand_of result out.new ≡ go room (attribute_courses image.now v (readable (attribute_at v.reader image.now) (run_at image.now (search_of v id 4) start start.from))) (stand_of p out.old) }
{
    let q = search(v, id, 4);
    let keys = q.keys;
    let mut o = p;
    let mut s = start;
    let mut i = s.from;
    loop {
        let at = o.answer;
        if let Err(_) = at {
            return o;
        }
        let reached = s.reached;
        match attribute_in(image, keys, reached, i) {
            Seen::Over => return o,
            Seen::Refused(_) => return o,
            Seen::Passed => {
                let c = s.path;
                s = next(image, q, c, s.level, s.nodes);
                i = s.from;
            }
            Seen::Element(a, after) => {
                o = put_attribute(out, room, o, image, v, a);
                i = after;
            }
        }
    }
}
