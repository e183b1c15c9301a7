// Bounds-checked little-endian fields and parts of a slice of bytes (bytes.rs).
#![tactic(auto)]

ghost use Rattle.std.specs.Prelude.{◌≡◌, ◌+◌, ◌≤◌, length, take, drop};
ghost use Rattle.std.proofs.lemmas.List.Edits.{sets};
ghost use Rattle.error.specs.declared.Refusal.TheVariants.{Corrupt};
ghost use Rattle.byte_fields.specs.Number.{little, little_bytes, number_at};
ghost use Rattle.byte_fields.specs.Part.{part_of, span_at, up_to_zero};

use error::Refusal;

// Where a part of a slice lies.
#[derive(Clone, Copy)]
pub struct Span {
    pub start: usize,
    pub len: usize,
}

// The N bytes at off.
fn bytes_at<const N: usize>(b: &[u8], off: usize) -> [u8; N]
    requires { off + N ≤ length b.now }
    ensures { result ≡ take N (drop off b.now) }
{
    let mut bytes = [0; N];
    bytes.copy_from_slice(&b[off..off + N]);
    bytes
}

#[tactic(auto, using(crate::proofs::Laws::from_bytes))]
fn two(b: &[u8], off: usize) -> u16
    requires { off + 2 ≤ length b.now }
    ensures { result ≡ little 2 b.now off }
{
    u16::from_le_bytes(bytes_at(b, off))
}

#[tactic(auto, using(crate::proofs::Laws::from_bytes))]
pub fn four(b: &[u8], off: usize) -> u32
    requires { off + 4 ≤ length b.now }
    ensures { result ≡ little 4 b.now off }
{
    u32::from_le_bytes(bytes_at(b, off))
}

#[tactic(auto, using(crate::proofs::Laws::from_bytes))]
pub fn eight(b: &[u8], off: usize) -> u64
    requires { off + 8 ≤ length b.now }
    ensures { result ≡ little 8 b.now off }
{
    u64::from_le_bytes(bytes_at(b, off))
}

#[tactic(auto, unfolding(crate::specs::Number::number_at, crate::specs::Part::span_at, error::specs::Answer::if_le))]
pub fn u16_at(b: &[u8], off: usize) -> Result<u16, Refusal>
    ensures { result ≡ number_at 2 b.now off }
{
    slice_at(b, off, 2)?;
    Ok(two(b, off))
}

#[tactic(auto, unfolding(crate::specs::Number::number_at, crate::specs::Part::span_at, error::specs::Answer::if_le))]
pub fn u32_at(b: &[u8], off: usize) -> Result<u32, Refusal>
    ensures { result ≡ number_at 4 b.now off }
{
    slice_at(b, off, 4)?;
    Ok(four(b, off))
}

#[tactic(auto, unfolding(crate::specs::Number::number_at, crate::specs::Part::span_at, error::specs::Answer::if_le))]
pub fn u64_at(b: &[u8], off: usize) -> Result<u64, Refusal>
    ensures { result ≡ number_at 8 b.now off }
{
    slice_at(b, off, 8)?;
    Ok(eight(b, off))
}

// The n lowest bytes of a number, stored from a place on.
#[tactic(auto, using(crate::proofs::Little::putting))]
pub fn put_little(out: &mut [u8], at: usize, n: usize, x: u64)
    requires { at + n ≤ length out.old }
    ensures { out.new ≡ sets out.old at (little_bytes n x) }
{
    let mut rest = x;
    for i in 0..n {
        out[at + i] = (rest % 256) as u8;
        rest /= 256;
    }
}

// Where the len bytes at off lie, or `e` if they are not all within `size` bytes.
#[tactic(auto, unfolding(crate::specs::Part::span_at, error::specs::Answer::if_le))]
pub fn span_at(size: usize, off: usize, len: usize, e: Refusal) -> Result<Span, Refusal>
    ensures { result ≡ span_at e size off len }
{
    if size < len || size - len < off {
        return Err(e);
    }
    Ok(Span { start: off, len })
}

pub fn slice_at(b: &[u8], off: usize, len: usize) -> Result<Span, Refusal>
    ensures { result ≡ span_at Corrupt (length b.now) off len }
{
    span_at(b.len(), off, len, Refusal::Corrupt)
}

// The bytes of a span, or as many of them as there are.
#[tactic(auto, using(crate::proofs::Laws::part_cut))]
pub fn part(b: &[u8], s: Span) -> &[u8]
    ensures { result.now ≡ part_of b.now s }
{
    let rest = &b[s.start.min(b.len())..];
    &rest[..s.len.min(rest.len())]
}

// The bytes before the first zero byte, or all of them.
pub fn cstr(b: &[u8]) -> &[u8]
    ensures { result.now ≡ up_to_zero b.now }
{
    match b.iter().position(|x| *x == 0) {
        Some(n) => &b[..n],
        None => b,
    }
}
