// An extended attribute (`j_xattr_key_t` and `j_xattr_val_t`).
ghost use Rattle.std.specs.Prelude.{◌≡◌};
ghost use Rattle.records.specs.Attribute.{stream_in, data_in, attribute_of, attribute_name, attribute_bytes};

use byte_fields::{Span, part, slice_at, u16_at, u64_at};
use error::Refusal;
use names::{Name, name_bytes, name_of};
use node::{Place, key_in, key_of, value_in, value_of};
use obj::Reader;

// Contents that lie in a data stream.
#[derive(Clone, Copy)]
pub struct StreamData {
    pub object: u64,
    pub size: u64,
}

// Embedded contents are a part of the record's value.
#[derive(Clone, Copy)]
pub enum AttributeData {
    Embedded(Span),
    Stream(StreamData),
}

// The name is a part of the record's key.
#[derive(Clone, Copy)]
pub struct Attribute {
    pub place: Place,
    pub name: Name,
    pub flags: u16,
    pub contents: AttributeData,
}

#[tactic(auto, unfolding(crate::specs::Attribute::stream_in))]
fn stream_in(b: &[u8]) -> Result<AttributeData, Refusal>
    ensures { result ≡ stream_in b.now }
{
    Ok(AttributeData::Stream(StreamData {
        object: u64_at(b, 0)?,
        size: u64_at(b, 8)?,
    }))
}

// Where the contents lie.
#[tactic(auto, unfolding(crate::specs::Attribute::data_in, error::specs::Answer::if_eq))]
fn data_in(value: &[u8], flags: u16) -> Result<AttributeData, Refusal>
    ensures { result ≡ data_in value.now flags }
{
    let len = u16_at(value, 2)?;
    let span = slice_at(value, 4, len as usize)?;
    if flags % 2 == 1 {
        return stream_in(part(value, span));
    }
    Ok(AttributeData::Embedded(span))
}

// The attribute of a record in the block b. The name is read last.
#[tactic(auto, unfolding(crate::specs::Attribute::attribute_of, crate::specs::Attribute::attribute_value, crate::specs::Attribute::with_name))]
pub fn attribute_of(b: &[u8], place: Place) -> Result<Attribute, Refusal>
    ensures { result ≡ attribute_of b.now place }
{
    let key = key_in(b, place);
    let value = value_in(b, place);
    let len = u16_at(key, 8)?;
    let flags = u16_at(value, 0)?;
    let contents = data_in(value, flags)?;
    let span = slice_at(key, 10, len as usize)?;
    Ok(Attribute {
        place,
        name: name_of(key, span),
        flags,
        contents,
    })
}

// The bytes of an attribute's name.
#[tactic(auto, unfolding(crate::specs::Attribute::attribute_name))]
pub fn attribute_name(reader: Reader, image: &[u8], a: Attribute) -> &[u8]
    ensures { result.now ≡ attribute_name reader image.now a }
{
    name_bytes(key_of(reader, image, a.place), a.name)
}

// The bytes of a part of an attribute's value.
#[tactic(auto, unfolding(crate::specs::Attribute::attribute_bytes))]
pub fn attribute_bytes(reader: Reader, image: &[u8], place: Place, span: Span) -> &[u8]
    ensures { result.now ≡ attribute_bytes reader image.now place span }
{
    part(value_of(reader, image, place), span)
}
