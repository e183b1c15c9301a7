// Sums, headers and places of objects.
ghost use Rattle.std.specs.Prelude.{◌≡◌, length};
ghost use Rattle.error.specs.declared.Refusal.TheVariants.{Io};
ghost use Rattle.byte_fields.specs.Part.{span_at};
ghost use Rattle.checksum.specs.Fletcher.{checksum, valid};
ghost use Rattle.obj.specs.Header.{header_at};
ghost use Rattle.leaves.specs.Leaves.{header_field, refusal_in, one_if};

#[unsafe(no_mangle)]
pub extern "C" fn leaf_compute(object: &[u8]) -> u64
    ensures { result ≡ checksum object.now }
{
    leaves::leaf_compute(object)
}

#[unsafe(no_mangle)]
pub extern "C" fn leaf_verify(object: &[u8]) -> u64
    ensures { result ≡ one_if (valid object.now) }
{
    leaves::leaf_verify(object)
}

#[unsafe(no_mangle)]
pub extern "C" fn leaf_header(b: &[u8], field: u64) -> u64
    ensures { result ≡ header_field field (header_at b.now) }
{
    leaves::leaf_header(b, field)
}

#[unsafe(no_mangle)]
pub extern "C" fn leaf_header_refused(b: &[u8]) -> u64
    ensures { result ≡ refusal_in (header_at b.now) }
{
    leaves::leaf_header_refused(b)
}

#[unsafe(no_mangle)]
pub extern "C" fn leaf_read_at(image: &[u8], off: u64, len: usize) -> u64
    ensures { result ≡ refusal_in (span_at Io (length image.now) off len) }
{
    leaves::leaf_read_at(image, off, len)
}
