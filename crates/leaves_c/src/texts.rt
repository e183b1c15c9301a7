// The lossy reading.
ghost use Rattle.std.specs.Prelude.{◌≡◌};
ghost use Rattle.utf8.specs.Text.{piece_of, lossy, replaced, strict, same_bytes};
ghost use Rattle.leaves.specs.Leaves.{piece_number, one_if};

// The next piece: 0 at the end, n for a sequence of n bytes, 256 + n for an ill-formed part of n bytes.
#[unsafe(no_mangle)]
pub extern "C" fn leaf_piece(b: &[u8]) -> u64
    ensures { result ≡ piece_number (piece_of b.now) }
{
    leaves::leaf_piece(b)
}

#[unsafe(no_mangle)]
pub extern "C" fn leaf_reads_as(name: &[u8], text: &[u8]) -> u64
    ensures { result ≡ one_if (same_bytes (lossy name.now) text.now) }
{
    leaves::leaf_reads_as(name, text)
}

#[unsafe(no_mangle)]
pub extern "C" fn leaf_is_utf8(b: &[u8]) -> u64
    ensures { result ≡ one_if (strict b.now) }
{
    leaves::leaf_is_utf8(b)
}

#[unsafe(no_mangle)]
pub extern "C" fn leaf_replaced(b: &[u8]) -> u64
    ensures { result ≡ replaced b.now }
{
    leaves::leaf_replaced(b)
}
