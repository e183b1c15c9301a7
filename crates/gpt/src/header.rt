// A header of the table: whether it is intact, and where it says that the entries lie.
ghost use Rattle.std.specs.Prelude.{◌≡◌, Some, None, ◌+◌, ◌*◌, ◌≤◌, length};
ghost use Rattle.error.specs.Answer.{pick};
ghost use Rattle.gpt.specs.Table.{sector_of, table_in, size_fits, array_intact, intact, table_of, header_intact};

use crate::crc32::{crc32_of, header_crc};
use crate::small::SmallImage;
use byte_fields::{Span, eight, four, part};
use error::Refusal;

// Entries of `size` bytes each, from byte `start` on.
#[derive(Clone, Copy)]
pub struct Table {
    pub start: usize,
    pub count: u32,
    pub size: u32,
}

// "entry length 128 times a power of two"
#[tactic(auto, unfolding(crate::specs::Table::size_fits, error::specs::Answer::if_le))]
fn size_fits(size: u32) -> bool
    ensures { result ≡ size_fits size }
{
    128 <= size && size.is_power_of_two()
}

// The header's own fields and its sum.
#[tactic(auto, unfolding(crate::specs::Table::header_intact, error::specs::Answer::if_le, error::specs::Answer::if_eq))]
fn header_intact(h: &[u8], lba: u64) -> bool
    requires { length h.now ≡ 512 }
    ensures { result ≡ header_intact h.now lba }
{
    if eight(h, 0) != 0x5452415020494645 {
        return false;
    }
    if eight(h, 24) != lba {
        return false;
    }
    let len = four(h, 12);
    if len < 92 {
        return false;
    }
    if 512 < len {
        return false;
    }
    header_crc(h, len as usize) == four(h, 16)
}

impl<'a> SmallImage<'a> {
    #[tactic(auto, using(crate::proofs::Headers::headers), unfolding(crate::specs::Table::sector_of))]
    fn sector(&self, lba: u64) -> &'a [u8]
        requires { 512 * lba + 512 ≤ length self.now.bytes.now }
        ensures { (result.now ≡ sector_of self.now.bytes.now lba) × (length result.now ≡ 512) }
    {
        part(
            self.bytes,
            Span {
                start: (512 * lba) as usize,
                len: 512,
            },
        )
    }

    // The entries lie in the image and have the sum that the header says.
    #[tactic(auto, using(byte_fields::proofs::Laws::wide_product), unfolding(crate::specs::Table::array_intact, crate::specs::Table::table_in, crate::specs::Table::array_of, error::specs::Answer::if_le))]
    fn array_intact(&self, h: &[u8]) -> bool
        requires { length h.now ≡ 512 }
        ensures { result ≡ array_intact self.now.bytes.now h.now }
    {
        let size = four(h, 84);
        if !size_fits(size) {
            return false;
        }
        let lba = eight(h, 72);
        if self.bytes.len() as u64 / 512 < lba {
            return false;
        }
        let start = (512 * lba) as usize;
        let len = four(h, 80) as u64 * size as u64;
        let left = (self.bytes.len() - start) as u64;
        if left < len {
            return false;
        }
        let array = part(
            self.bytes,
            Span {
                start: start,
                len: len as usize,
            },
        );
        crc32_of(array) == four(h, 88)
    }

    // What the header of a sector says, where it is intact.
    #[tactic(auto, using(crate::proofs::Headers::headers), unfolding(crate::specs::Table::intact, crate::specs::Table::table_in))]
    fn table_at(&self, lba: u64) -> Option<Table>
        requires { 512 * lba + 512 ≤ length self.now.bytes.now }
        ensures { result ≡ pick (intact self.now.bytes.now lba) (Some (table_in (sector_of self.now.bytes.now lba))) None }
    {
        let h = self.sector(lba);
        if !header_intact(h, lba) || !self.array_intact(h) {
            return None;
        }
        Some(Table {
            start: (512 * eight(h, 72)) as usize,
            count: four(h, 80),
            size: four(h, 84),
        })
    }

    // The backup header, in the last whole sector, is asked where the primary is not intact.
    #[tactic(auto, unfolding(crate::specs::Table::table_of))]
    pub fn table_of(&self) -> Result<Table, Refusal>
        requires { 4096 ≤ length self.now.bytes.now }
        ensures { result ≡ table_of self.now.bytes.now }
    {
        let last = self.bytes.len() as u64 / 512 - 1;
        match self.table_at(1) {
            Some(table) => Ok(table),
            None => self.table_at(last).ok_or(Refusal::NoPartitionTable),
        }
    }
}
