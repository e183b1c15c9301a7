// A file extent (`j_file_extent_key_t` and `j_file_extent_val_t`).
ghost use Rattle.std.specs.Prelude.{◌≡◌};
ghost use Rattle.records.specs.Extent.{extent_of};

use byte_fields::u64_at;
use error::Refusal;
use node::{Place, key_in, value_in};

// `len` bytes of a file from `logical` on, stored from block `phys_block` on; block 0 means a hole.
#[derive(Clone, Copy)]
pub struct Extent {
    pub logical: u64,
    pub len: u64,
    pub phys_block: u64,
}

// The extent of a record in the block b.
#[tactic(auto, unfolding(crate::specs::Extent::extent_of, crate::specs::Extent::extent_in))]
pub fn extent_of(b: &[u8], place: Place) -> Result<Extent, Refusal>
    ensures { result ≡ extent_of b.now place }
{
    let key = key_in(b, place);
    let value = value_in(b, place);
    Ok(Extent {
        logical: u64_at(key, 8)?,
        len: u64_at(value, 0)? % (1 << 56),
        phys_block: u64_at(value, 8)?,
    })
}
