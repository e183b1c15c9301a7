// The volume slots of a superblock: the first 100 at most, zeros dropped.
ghost use Rattle.std.specs.Prelude.{◌≡◌};
ghost use Rattle.nx.specs.Slots.{slot_at, slot_count, slot_of, volumes_of, volume_at};

use byte_fields::{part, u64_at};
use checkpoints::Superblock;
use error::Refusal;

// The object id in a slot, or 0.
fn slot_at(b: &[u8], i: u32) -> u64
    ensures { result ≡ slot_at b.now i }
{
    match u64_at(b, 184 + 8 * i as usize) {
        Ok(oid) => oid,
        Err(_) => 0,
    }
}

pub fn slot_count(sb: Superblock) -> u32
    ensures { result ≡ slot_count sb }
{
    if 100 < sb.max_volumes {
        return 100;
    }
    sb.max_volumes
}

// The object id in a superblock's i-th slot, or 0.
pub fn slot_of(image: &[u8], sb: Superblock, i: u32) -> u64
    ensures { result ≡ slot_of image.now sb i }
{
    let place = sb.place;
    slot_at(part(image, place), i)
}

// The object id of a volume by its index among the slots in use.
pub fn volume_oid(image: &[u8], sb: Superblock, index: u64) -> Result<u64, Refusal>
    ensures { result ≡ volume_at index (volumes_of image.now sb) }
{
    let n = slot_count(sb);
    let mut left = index;
    let mut i: u32 = 0;
    while i < n {
        let oid = slot_of(image, sb, i);
        i += 1;
        if oid == 0 {
            continue;
        }
        if left == 0 {
            return Ok(oid);
        }
        left -= 1;
    }
    Err(Refusal::NotFound)
}
