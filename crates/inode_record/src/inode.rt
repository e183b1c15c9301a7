// An inode (`j_inode_val_t`).
ghost use Rattle.std.specs.Prelude.{◌≡◌};
ghost use Rattle.inode_record.specs.Inode.{ids_in, times_in, owner_in, inode_at, inode_name};

use crate::fields::{Fields, fields_in};
use byte_fields::{u16_at, u32_at, u64_at};
use error::Refusal;
use names::{Name, name_bytes};
use node::{Place, value_of};
use obj::Reader;

#[derive(Clone, Copy)]
pub struct Ids {
    pub parent: u64,
    pub private_id: u64,
}

#[derive(Clone, Copy)]
pub struct Times {
    pub create: u64,
    pub modify: u64,
    pub change: u64,
    pub access: u64,
}

#[derive(Clone, Copy)]
pub struct Owner {
    pub internal_flags: u64,
    pub links: i32,
    pub bsd_flags: u32,
    pub owner: u32,
    pub group: u32,
    pub mode: u16,
}

#[derive(Clone, Copy)]
pub struct Inode {
    pub place: Place,
    pub id: u64,
    pub ids: Ids,
    pub times: Times,
    pub owner: Owner,
    pub fields: Fields,
}

#[tactic(auto, unfolding(crate::specs::Inode::ids_in))]
fn ids_in(v: &[u8]) -> Result<Ids, Refusal>
    ensures { result ≡ ids_in v.now }
{
    Ok(Ids {
        parent: u64_at(v, 0)?,
        private_id: u64_at(v, 8)?,
    })
}

#[tactic(auto, unfolding(crate::specs::Inode::times_in))]
fn times_in(v: &[u8]) -> Result<Times, Refusal>
    ensures { result ≡ times_in v.now }
{
    Ok(Times {
        create: u64_at(v, 16)?,
        modify: u64_at(v, 24)?,
        change: u64_at(v, 32)?,
        access: u64_at(v, 40)?,
    })
}

#[tactic(auto, using(crate::proofs::Laws::links_read), unfolding(crate::specs::Inode::owner_in))]
fn owner_in(v: &[u8]) -> Result<Owner, Refusal>
    ensures { result ≡ owner_in v.now }
{
    Ok(Owner {
        internal_flags: u64_at(v, 48)?,
        links: u32_at(v, 56)?.cast_signed(),
        bsd_flags: u32_at(v, 68)?,
        owner: u32_at(v, 72)?,
        group: u32_at(v, 76)?,
        mode: u16_at(v, 80)?,
    })
}

// The inode of a record.
#[tactic(auto, unfolding(crate::specs::Inode::inode_at, crate::specs::Inode::inode_in))]
pub fn inode_at(reader: Reader, image: &[u8], place: Place, id: u64) -> Result<Inode, Refusal>
    ensures { result ≡ inode_at reader image.now place id }
{
    let v = value_of(reader, image, place);
    Ok(Inode {
        place,
        id,
        ids: ids_in(v)?,
        times: times_in(v)?,
        owner: owner_in(v)?,
        fields: fields_in(v)?,
    })
}

// The bytes of a name in an inode's value.
#[tactic(auto, unfolding(crate::specs::Inode::inode_name))]
pub fn inode_name(reader: Reader, image: &[u8], place: Place, name: Name) -> &[u8]
    ensures { result.now ≡ inode_name reader image.now place name }
{
    name_bytes(value_of(reader, image, place), name)
}
