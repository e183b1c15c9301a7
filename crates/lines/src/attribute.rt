// The line of an attribute.
ghost use Rattle.std.specs.Prelude.{◌≡◌, []};
ghost use Rattle.utf8.specs.Text.{lossy};
ghost use Rattle.text.specs.Output.{output_of, puts};
ghost use Rattle.records.specs.Attribute.{attribute_name, attribute_bytes};
ghost use Rattle.lines.specs.Shown.{form_shown, attribute_shown};
ghost use Rattle.lines.specs.Lines.{attribute_line};
ghost use Rattle.lines.specs.Inner.{form_head, attribute_head};

use crate::word::{put_name, put_number};
use byte_fields::Span;
use error::Refusal;
use obj::Reader;
use records::{Attribute, AttributeData, StreamData, attribute_bytes, attribute_name};
use text::{put_all, put_hex};

// Where the contents stand, up to their first digit.
fn put_form(
    out: &mut [u8],
    room: usize,
    p: Result<usize, Refusal>,
    contents: AttributeData,
) -> Result<usize, Refusal>
    ensures { output_of result out.new ≡ puts room (form_head (form_shown contents) []) (output_of p out.old) }
{
    match contents {
        AttributeData::Embedded(_) => put_all(out, room, p, b" e x"),
        AttributeData::Stream(d) => {
            let a = put_all(out, room, p, b" s");
            let b = put_number(out, room, a, d.object);
            put_all(out, room, b, b" x")
        }
    }
}

// The line up to the first digit of the contents: a caller that has them writes their digits, then `)` and LF.
pub fn put_attribute_head(
    out: &mut [u8],
    room: usize,
    p: Result<usize, Refusal>,
    image: &[u8],
    reader: Reader,
    a: Attribute,
) -> Result<usize, Refusal>
    ensures { output_of result out.new ≡ puts room (attribute_head a.flags (lossy (attribute_name reader image.now a)) (form_shown a.contents) []) (output_of p out.old) }
{
    let b = put_all(out, room, p, b"(attr");
    let c = put_number(out, room, b, a.flags as u64);
    let d = put_name(out, room, c, attribute_name(reader, image, a));
    let contents = a.contents;
    put_form(out, room, d, contents)
}

// The whole line, with contents that are a part of the record's value.
pub fn put_attribute_embedded(
    out: &mut [u8],
    room: usize,
    p: Result<usize, Refusal>,
    image: &[u8],
    reader: Reader,
    a: Attribute,
    span: Span,
) -> Result<usize, Refusal>
    ensures { output_of result out.new ≡ puts room (attribute_line (attribute_shown reader image.now a (attribute_bytes reader image.now a.place span)) []) (output_of p out.old) }
{
    let place = a.place;
    let b = put_attribute_head(out, room, p, image, reader, a);
    let c = put_hex(out, room, b, attribute_bytes(reader, image, place, span));
    put_all(out, room, c, b")\n")
}
