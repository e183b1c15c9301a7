// Fields and parts of bytes.
ghost use Rattle.std.specs.Prelude.{◌≡◌, length};
ghost use Rattle.error.specs.declared.Refusal.TheVariants.{Corrupt};
ghost use Rattle.byte_fields.specs.Part.{span_at, up_to_zero};
ghost use Rattle.leaves.specs.Leaves.{field_at, value_or, refusal_in};

#[unsafe(no_mangle)]
pub extern "C" fn leaf_number(b: &[u8], off: usize, width: usize) -> u64
    ensures { result ≡ value_or 0 (field_at b.now off width) }
{
    leaves::leaf_number(b, off, width)
}

#[unsafe(no_mangle)]
pub extern "C" fn leaf_number_refused(b: &[u8], off: usize, width: usize) -> u64
    ensures { result ≡ refusal_in (field_at b.now off width) }
{
    leaves::leaf_number_refused(b, off, width)
}

#[unsafe(no_mangle)]
pub extern "C" fn leaf_slice_refused(b: &[u8], off: usize, len: usize) -> u64
    ensures { result ≡ refusal_in (span_at Corrupt (length b.now) off len) }
{
    leaves::leaf_slice_refused(b, off, len)
}

// How many bytes stand before the first zero byte or the end.
#[unsafe(no_mangle)]
pub extern "C" fn leaf_cstr(b: &[u8]) -> usize
    ensures { result ≡ length (up_to_zero b.now) }
{
    leaves::leaf_cstr(b)
}
