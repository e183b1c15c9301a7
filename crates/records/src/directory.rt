// A directory entry (`j_drec_key_t` or `j_drec_hashed_key_t`, and `j_drec_val_t`).
ghost use Rattle.std.specs.Prelude.{◌≡◌};
ghost use Rattle.records.specs.Directory.{name_in, entry_of, entry_name, entry_reading};

use byte_fields::{Span, cstr, part, u16_at, u32_at, u64_at};
use error::Refusal;
use names::name_of;
use node::{Place, key_in, key_of, value_in};
use obj::Reader;

// The name is a part of the record's key.
#[derive(Clone, Copy)]
pub struct Entry {
    pub place: Place,
    pub name: Span,
    pub file_id: u64,
    pub date_added: u64,
    pub kind: u16,
}

// Where the name lies: which form the key has, its volume says. Beside a hash, the count of the name's bytes is in the low 10
// bits.
#[tactic(auto, unfolding(crate::specs::Directory::name_in, crate::specs::Directory::hashed_name, crate::specs::Directory::plain_name, error::specs::Answer::if_eq))]
fn name_in(key: &[u8], hashed: bool) -> Result<Span, Refusal>
    ensures { result ≡ name_in hashed key.now }
{
    let (start, len) = if hashed {
        (12, u32_at(key, 8)? as usize % 1024)
    } else {
        (10, u16_at(key, 8)? as usize)
    };
    if key.len() == start + len {
        return Ok(Span { start, len });
    }
    Err(Refusal::Corrupt)
}

// The entry of a record in the block b.
#[tactic(auto, unfolding(crate::specs::Directory::entry_of, crate::specs::Directory::entry_value))]
pub fn entry_of(b: &[u8], place: Place, hashed: bool) -> Result<Entry, Refusal>
    ensures { result ≡ entry_of hashed b.now place }
{
    let name = name_in(key_in(b, place), hashed)?;
    let value = value_in(b, place);
    Ok(Entry {
        place,
        name,
        file_id: u64_at(value, 0)?,
        date_added: u64_at(value, 8)?,
        kind: u16_at(value, 16)? % 16,
    })
}

// The bytes of an entry's name, up to the first zero byte.
#[tactic(auto, unfolding(crate::specs::Directory::entry_name))]
pub fn entry_name(reader: Reader, image: &[u8], e: Entry) -> &[u8]
    ensures { result.now ≡ entry_name reader image.now e }
{
    cstr(part(key_of(reader, image, e.place), e.name))
}

// How many parts of its name the lossy reading replaces: counted when it is asked, since most entries that are read are passed
// over.
#[tactic(auto, unfolding(crate::specs::Directory::entry_reading, crate::specs::Directory::entry_name, names::specs::Name::name_of))]
pub fn entry_replaced(reader: Reader, image: &[u8], e: Entry) -> u64
    ensures { result ≡ (entry_reading reader image.now e).replaced }
{
    name_of(key_of(reader, image, e.place), e.name).replaced
}
