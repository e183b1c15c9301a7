// The checkpoint maps of a candidate.
ghost use Rattle.std.specs.Prelude.{◌≡◌, ◌-◌, ◌<◌, min};
ghost use Rattle.checkpoints.specs.Maps.{entries_held, entries_in, checkpoint_map_in, checkpoint_map_at, maps_fit};

use crate::superblock::Descriptors;
use arith::sum;
use byte_fields::{part, u32_at};
use obj::Reader;

// A map of `count` entries, 40 bytes each, in a block of `size` bytes.
#[tactic(auto, unfolding(crate::specs::Maps::entries_held, error::specs::Answer::if_le, error::specs::Answer::if_eq))]
fn map_of(size: usize, flags: u32, count: u32) -> Option<bool>
    ensures { result ≡ entries_held size flags count }
{
    if size < 40 + 40 * count as usize {
        return None;
    }
    Some(flags % 2 == 1)
}

#[tactic(auto, unfolding(crate::specs::Maps::entries_in, error::specs::Answer::if_le, error::specs::Answer::if_eq))]
fn map_counted(b: &[u8]) -> Option<bool>
    ensures { result ≡ entries_in b.now }
{
    let flags = u32_at(b, 32).ok()?;
    let count = u32_at(b, 36).ok()?;
    map_of(b.len(), flags, count)
}

#[tactic(auto, unfolding(crate::specs::Maps::checkpoint_map_in, error::specs::Answer::if_le, error::specs::Answer::if_eq))]
fn map_in(b: &[u8], xid: u64) -> Option<bool>
    ensures { result ≡ checkpoint_map_in b.now xid }
{
    let h = obj::parse(b).ok()?;
    if h.kind() != 12 {
        return None;
    }
    if h.xid != xid {
        return None;
    }
    map_counted(b)
}

// The k-th map of a candidate, on a ring of blocks.
#[tactic(auto, unfolding(crate::specs::Maps::checkpoint_map_at, error::specs::Answer::if_le, error::specs::Answer::if_eq))]
fn map_at(reader: Reader, image: &[u8], d: Descriptors, xid: u64, ring: u32, k: u32) -> Option<bool>
    requires { 0 < ring }
    ensures { result ≡ checkpoint_map_at reader image.now d xid ring k }
{
    let paddr = sum(d.base, (d.index as u64 + k as u64) % (ring as u64)).ok()?;
    let s = reader.read_object(image, paddr).ok()?;
    map_in(part(image, s), xid)
}

// How many maps are tested: all, but none twice.
fn tested(len: u32, ring: u32) -> u32
    ensures { result ≡ min (len - 1) ring }
{
    if len <= ring {
        if len == 0 {
            return 0;
        }
        return len - 1;
    }
    ring
}

// Whether a candidate's maps are all there.
#[tactic(auto, using(crate::proofs::Ring::rings))]
pub fn maps_fit(reader: Reader, image: &[u8], d: Descriptors, xid: u64, ring: u32) -> bool
    ensures { result ≡ maps_fit reader image.now d xid ring }
{
    if ring == 0 {
        return true;
    }
    let n = tested(d.len, ring);
    for k in 0..n {
        match map_at(reader, image, d, xid, ring, k) {
            Some(last) => {
                if last {
                    return true;
                }
            }
            None => return false,
        }
    }
    true
}
