// The extended fields of an inode (`xf_blob_t`): a table of kinds and sizes, then each field's bytes.
ghost use Rattle.std.specs.Prelude.{◌≡◌, ◌+◌, ◌*◌};
ghost use Rattle.inode_record.specs.Fields.{stream_field, field_in, merged_of, field_at, fields_from, no_fields, fields_in};

use byte_fields::{Span, part, slice_at, u16_at, u32_at, u64_at};
use error::Refusal;
use names::{Name, name_of};

#[derive(Clone, Copy)]
pub struct Dstream {
    pub size: u64,
    pub alloced_size: u64,
}

#[derive(Clone, Copy)]
pub struct Fields {
    pub name: Option<Name>,
    pub stream: Option<Dstream>,
}

impl Fields {
    // A later copy of a field takes the place of an earlier one.
    fn or(self, earlier: Fields) -> Fields
        ensures { result ≡ merged_of self earlier }
    {
        Fields {
            name: self.name.or(earlier.name),
            stream: self.stream.or(earlier.stream),
        }
    }
}

const NO_FIELDS: Fields = Fields {
    name: None,
    stream: None,
};

#[tactic(auto, unfolding(crate::specs::Fields::stream_field))]
fn stream_field(b: &[u8]) -> Result<Fields, Refusal>
    ensures { result ≡ stream_field b.now }
{
    Ok(Fields {
        stream: Some(Dstream {
            size: u64_at(b, 0)?,
            alloced_size: u64_at(b, 8)?,
        }),
        ..NO_FIELDS
    })
}

// What one field, of a kind, gives.
#[tactic(auto, unfolding(crate::specs::Fields::field_in, error::specs::Answer::if_eq))]
fn field_in(v: &[u8], kind: u32, s: Span) -> Result<Fields, Refusal>
    ensures { result ≡ field_in v.now kind s }
{
    match kind {
        4 => Ok(Fields {
            name: Some(name_of(v, s)),
            ..NO_FIELDS
        }),
        8 => stream_field(part(v, s)),
        _ => Ok(NO_FIELDS),
    }
}

// The same of a field with its entry of the table, whose bytes lie at off.
#[tactic(auto, unfolding(crate::specs::Fields::field_at))]
fn field_at(v: &[u8], head: u32, off: usize) -> Result<Fields, Refusal>
    ensures { result ≡ field_at v.now head off }
{
    let s = slice_at(v, off, (head / 65536) as usize)?;
    field_in(v, head % 256, s)
}

// The fields of a table of n, whose bytes begin after it.
fn fields_of(v: &[u8], n: u16) -> Result<Fields, Refusal>
    ensures { result ≡ fields_from v.now n 0 (96 + 4 * n) no_fields }
{
    let mut f = NO_FIELDS;
    let count = usize::from(n);
    let mut off = 96 + 4 * count;
    for i in 0..count {
        let head = u32_at(v, 96 + 4 * i)?;
        f = field_at(v, head, off)?.or(f);
        off += ((head / 65536 + 7) / 8 * 8) as usize;
    }
    Ok(f)
}

// The extended fields of an inode's value.
#[tactic(auto, unfolding(crate::specs::Fields::fields_in, error::specs::Answer::if_le))]
pub fn fields_in(v: &[u8]) -> Result<Fields, Refusal>
    ensures { result ≡ fields_in v.now }
{
    if v.len() < 96 {
        return Ok(NO_FIELDS);
    }
    fields_of(v, u16_at(v, 92)?)
}
