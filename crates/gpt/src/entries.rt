// The entries of the table: the first one of a container's type.
ghost use Rattle.std.specs.Prelude.{◌≡◌, ◌+◌, ◌*◌, ◌^◌, ◌≤◌, length};
ghost use Rattle.gpt.specs.Table.{is_apfs, place_of, entry_in};

use crate::header::Table;
use crate::small::SmallImage;
use byte_fields::{Span, eight};
use error::Refusal;

// Type 7C3457EF-0000-11AA-AA11-00306543ECAC, as two numbers.
#[tactic(auto, unfolding(crate::specs::Table::is_apfs, error::specs::Answer::if_eq))]
fn is_apfs(image: &[u8], at: usize) -> bool
    requires { at + 16 ≤ length image.now }
    ensures { result ≡ is_apfs image.now at }
{
    eight(image, at) == 0x11AA00007C3457EF && eight(image, at + 8) == 0xACEC4365300011AA
}

// From the first sector to the last, which is part of it.
#[tactic(auto, unfolding(crate::specs::Table::place_of, error::specs::Answer::if_le))]
fn place_of(size: usize, first: u64, last: u64) -> Result<Span, Refusal>
    requires { size ≤ 2 ^ 34 }
    ensures { result ≡ place_of size first last }
{
    if last < first {
        return Err(Refusal::NoPartition);
    }
    if size as u64 / 512 <= last {
        return Err(Refusal::NoPartition);
    }
    Ok(Span {
        start: (512 * first) as usize,
        len: (512 * (last + 1 - first)) as usize,
    })
}

impl SmallImage<'_> {
    #[tactic(auto, using(crate::proofs::Finding::finding))]
    pub fn entry_in(&self, t: Table) -> Result<Span, Refusal>
        requires { (t.start + t.count * t.size ≤ length self.now.bytes.now) × (128 ≤ t.size) }
        ensures { result ≡ entry_in self.now.bytes.now t t.count 0 }
    {
        for i in 0..t.count {
            let at = t.start + i as usize * t.size as usize;
            if is_apfs(self.bytes, at) {
                return place_of(
                    self.bytes.len(),
                    eight(self.bytes, at + 32),
                    eight(self.bytes, at + 40),
                );
            }
        }
        Err(Refusal::NoPartition)
    }
}
