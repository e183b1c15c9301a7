// bytes.rs
ghost use Rattle.std.specs.Prelude.{◌≡◌, length};
ghost use Rattle.error.specs.declared.Refusal.TheVariants.{Corrupt};
ghost use Rattle.byte_fields.specs.Part.{span_at, up_to_zero};
ghost use Rattle.leaves.specs.Leaves.{field_at, value_or, refusal_in};

use crate::answers::refusal_in;
use error::Refusal;

// The number of 2, 4 or 8 bytes; of any other width 0.
#[tactic(auto, unfolding(crate::specs::Leaves::field_at, error::specs::Answer::if_le, error::specs::Answer::if_eq))]
fn field_at(b: &[u8], off: usize, width: usize) -> Result<u64, Refusal>
    ensures { result ≡ field_at b.now off width }
{
    match width {
        2 => Ok(byte_fields::u16_at(b, off)? as u64),
        4 => Ok(byte_fields::u32_at(b, off)? as u64),
        8 => byte_fields::u64_at(b, off),
        _ => Ok(0),
    }
}

#[unsafe(no_mangle)]
pub extern "C" fn leaf_number(b: &[u8], off: usize, width: usize) -> u64
    ensures { result ≡ value_or 0 (field_at b.now off width) }
{
    field_at(b, off, width).unwrap_or(0)
}

#[unsafe(no_mangle)]
pub extern "C" fn leaf_number_refused(b: &[u8], off: usize, width: usize) -> u64
    ensures { result ≡ refusal_in (field_at b.now off width) }
{
    refusal_in(field_at(b, off, width))
}

#[unsafe(no_mangle)]
pub extern "C" fn leaf_slice_refused(b: &[u8], off: usize, len: usize) -> u64
    ensures { result ≡ refusal_in (span_at Corrupt (length b.now) off len) }
{
    refusal_in(byte_fields::slice_at(b, off, len))
}

// How many bytes stand before the first zero byte or the end.
#[unsafe(no_mangle)]
pub extern "C" fn leaf_cstr(b: &[u8]) -> usize
    ensures { result ≡ length (up_to_zero b.now) }
{
    let text = byte_fields::cstr(b);
    text.len()
}
