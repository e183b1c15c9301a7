// What block 0 says: the block size, the block count and where the descriptor area lies.
#![tactic(auto)]

ghost use Rattle.std.specs.Prelude.{◌≡◌};
ghost use Rattle.geometry.specs.BlockZero.{has_magic, size_ok, size_in, ring_of, geometry_in, size_at, geometry_at, area_at};

use arith::product;
use byte_fields::{part, span_at, u32_at, u64_at};
use error::Refusal;
use obj::Reader;

#[derive(Clone, Copy)]
pub struct Geometry {
    pub reader: Reader,
    pub ring: u32,
    pub base: u64,
}

fn size_ok(size: u32) -> Result<u32, Refusal>
    ensures { result ≡ size_ok size }
{
    if size < 4096 {
        return Err(Refusal::Corrupt);
    }
    if 65536 < size {
        return Err(Refusal::Corrupt);
    }
    if u32::count_ones(size) != 1 {
        return Err(Refusal::Corrupt);
    }
    Ok(size)
}

// Whether a block has NXSB where a container superblock has it.
pub fn has_magic(b: &[u8]) -> bool
    ensures { result ≡ has_magic b.now }
{
    match u32_at(b, 32) {
        Ok(magic) => magic == 0x4253584E,
        Err(_) => false,
    }
}

// The block size that the first 4,096 bytes give.
#[tactic(auto, unfolding(crate::specs::BlockZero::size_in, error::specs::Answer::if_le, error::specs::Answer::if_eq))]
fn size_in(b: &[u8]) -> Result<u32, Refusal>
    ensures { result ≡ size_in b.now }
{
    if has_magic(b) {
        return size_ok(u32_at(b, 36)?);
    }
    Err(Refusal::NotFound)
}

// The descriptor area as a ring of blocks.
fn ring_of(size: u32, count: u64, blocks: u32, base: u64) -> Result<Geometry, Refusal>
    ensures { result ≡ ring_of size count blocks base }
{
    if blocks / 2147483648 == 1 {
        return Err(Refusal::Unsupported);
    }
    let reader = Reader {
        block_size: size,
        block_count: count,
    };
    Ok(Geometry {
        reader: reader,
        ring: blocks,
        base: base,
    })
}

#[tactic(auto, unfolding(crate::specs::BlockZero::geometry_in, error::specs::Answer::if_le, error::specs::Answer::if_eq))]
fn geometry_in(b: &[u8], size: u32) -> Result<Geometry, Refusal>
    ensures { result ≡ geometry_in b.now size }
{
    let count = u64_at(b, 40)?;
    let blocks = u32_at(b, 104)?;
    let base = u64_at(b, 112)?;
    ring_of(size, count, blocks, base)
}

#[tactic(auto, unfolding(crate::specs::BlockZero::size_at, error::specs::Answer::if_le, error::specs::Answer::if_eq))]
fn first_bytes(image: &[u8]) -> Result<u32, Refusal>
    ensures { result ≡ size_at image.now }
{
    let s = span_at(image.len(), 0, 4096, Refusal::Io)?;
    size_in(part(image, s))
}

#[tactic(auto, unfolding(crate::specs::BlockZero::geometry_at, error::specs::Answer::if_le, error::specs::Answer::if_eq))]
pub fn geometry_at(image: &[u8]) -> Result<Geometry, Refusal>
    ensures { result ≡ geometry_at image.now }
{
    let size = first_bytes(image)?;
    let s = span_at(image.len(), 0, size as usize, Refusal::Io)?;
    geometry_in(part(image, s), size)
}

// Where the descriptor area starts.
#[tactic(auto, unfolding(crate::specs::BlockZero::area_at, error::specs::Answer::if_le, error::specs::Answer::if_eq))]
pub fn area_at(size: usize, g: Geometry) -> Result<u64, Refusal>
    ensures { result ≡ area_at size g }
{
    let block = g.reader.block_size as u64;
    let start = product(g.base, block)?;
    let _ = span_at(
        size,
        start as usize,
        (g.ring as u64 * block) as usize,
        Refusal::Io,
    )?;
    Ok(start)
}
