// The accepted blocks of a ring: how many they are, and their numbers.
ghost use Rattle.std.specs.Prelude.{◌≡◌, ◌++◌, ◌+◌, ◌*◌, ◌^◌, ◌≤◌, ◌<◌, length, drop};
ghost use Rattle.checkpoints.specs.Numbers.{numbers_in, descending};
ghost use Rattle.xid_list.specs.Listed.{bytes_of};

use crate::insert::insert_number;
use checkpoints::accepted_block;
use obj::Reader;

#[tactic(auto, using(crate::proofs::Rings::count_start, crate::proofs::Rings::count_one, crate::proofs::Rings::count_none, crate::proofs::Rings::count_fits, crate::proofs::Rings::count_done))]
pub fn count_accepted(reader: Reader, image: &[u8], start: u64, ring: u32) -> usize
    requires { start + ring * reader.block_size < 2 ^ 64 }
    ensures { result ≡ length (numbers_in reader image.now start ring ring 0) }
{
    let mut n: usize = 0;
    for i in (0..ring).rev() {
        if accepted_block(reader, image, start, ring, i).is_some() {
            n += 1;
        }
    }
    n
}

// Backwards, each number put among those of the blocks after it.
#[tactic(auto, using(crate::proofs::Rings::stored_room, crate::proofs::Rings::stored_fits, crate::proofs::Rings::stored_count, crate::proofs::Rings::stored_bytes))]
pub fn write_accepted(reader: Reader, image: &[u8], start: u64, ring: u32, out: &mut [u8]) -> usize
    requires { (start + ring * reader.block_size < 2 ^ 64) × (8 * length (numbers_in reader image.now start ring ring 0) ≤ length out.old) }
    ensures { (result ≡ length (numbers_in reader image.now start ring ring 0)) × (out.new ≡ bytes_of (descending (numbers_in reader image.now start ring ring 0)) ++ drop (8 * result) out.old) }
{
    let mut n: usize = 0;
    for i in (0..ring).rev() {
        if let Some(sb) = accepted_block(reader, image, start, ring, i) {
            insert_number(out, n, sb.xid);
            n += 1;
        }
    }
    n
}
