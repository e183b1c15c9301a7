// Whether an extent's bytes may be read: no byte is touched before all is decided.
ghost use Rattle.std.specs.Prelude.{◌≡◌, ◌-◌, ◌≤◌, ◌<◌, min, max};
ghost use Rattle.extents.specs.Extents.{disk_of, blocks, counted_in, lies, reach, allows};
ghost use Rattle.extents.specs.Inner.{touches};

use error::Refusal;
use obj::Reader;
use records::Extent;

pub fn larger(a: u64, b: u64) -> u64
    ensures { result ≡ max a b }
{
    a.max(b)
}

pub fn smaller(a: u64, b: u64) -> u64
    ensures { result ≡ min a b }
{
    a.min(b)
}

// A size of 0, which no opened container has, is taken for 1.
pub fn block_size(reader: Reader) -> u64
    ensures { result ≡ max 1 reader.block_size }
{
    larger(1, u64::from(reader.block_size))
}

// How many blocks hold n bytes.
#[tactic(auto, using(crate::proofs::VerdictLaws::blocks_up))]
fn blocks_of(bs: u64, n: u64) -> u64
    requires { 0 < bs }
    ensures { result ≡ blocks bs n }
{
    n.div_ceil(bs)
}

// How many of a reader's blocks hold n bytes.
pub fn blocks_in(reader: Reader, n: u64) -> u64
    ensures { result ≡ blocks (max 1 reader.block_size) n }
{
    blocks_of(block_size(reader), n)
}

// The extent ends within the container.
#[tactic(auto, unfolding(crate::specs::Extents::counted_in, error::specs::Answer::if_le))]
pub fn counted_at(reader: Reader, e: Extent) -> Result<(), Refusal>
    ensures { result ≡ counted_in (max 1 reader.block_size) reader.block_count e }
{
    let blocks = blocks_in(reader, e.len);
    let end = e.phys_block.checked_add(blocks).ok_or(Refusal::Overflow)?;
    if reader.block_count < end {
        return Err(Refusal::Corrupt);
    }
    Ok(())
}

// The blocks from p up to q lie in the image.
#[tactic(auto, unfolding(crate::specs::Extents::lies, error::specs::Answer::if_le))]
pub fn lies_at(image: &[u8], reader: Reader, p: u64, q: u64) -> Result<(), Refusal>
    ensures { result ≡ lies (disk_of reader image.now) p q }
{
    let bs = block_size(reader);
    p.checked_mul(bs).ok_or(Refusal::Overflow)?;
    if image.len() as u64 / bs < q {
        return Err(Refusal::Io);
    }
    Ok(())
}

// The extent's own bytes from its a-th up to its b-th can be read.
#[tactic(auto, using(crate::proofs::VerdictLaws::sums), unfolding(crate::specs::Extents::reach))]
fn reach_at(image: &[u8], reader: Reader, e: Extent, a: u64, b: u64) -> Result<(), Refusal>
    requires { (a < b) × (b ≤ e.len) }
    ensures { result ≡ reach (disk_of reader image.now) e a b }
{
    counted_at(reader, e)?;
    let bs = block_size(reader);
    lies_at(
        image,
        reader,
        e.phys_block + a / bs,
        e.phys_block + blocks_of(bs, b),
    )
}

// The extent's part of the file's bytes from off up to stop may be read.
#[tactic(auto, unfolding(crate::specs::Extents::allows, error::specs::Answer::if_le, error::specs::Answer::if_eq))]
fn allows_at(image: &[u8], reader: Reader, off: u64, stop: u64, e: Extent) -> Result<(), Refusal>
    ensures { result ≡ allows (disk_of reader image.now) off stop e }
{
    let end = e.logical.checked_add(e.len).ok_or(Refusal::Overflow)?;
    let a = off.max(e.logical);
    let b = stop.min(end);
    if b <= a || e.phys_block == 0 {
        return Ok(());
    }
    reach_at(image, reader, e, a - e.logical, b - e.logical)
}

// The same, of an extent that is not looked at where it starts at or past stop.
#[tactic(auto, unfolding(crate::specs::Inner::touches, error::specs::Answer::if_le))]
pub fn touches_at(
    image: &[u8],
    reader: Reader,
    off: u64,
    stop: u64,
    e: Extent,
) -> Result<(), Refusal>
    ensures { result ≡ touches (disk_of reader image.now) off stop e }
{
    if stop <= e.logical {
        return Ok(());
    }
    allows_at(image, reader, off, stop, e)
}
