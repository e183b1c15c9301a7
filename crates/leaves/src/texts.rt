// The lossy reading.
ghost use Rattle.std.specs.Prelude.{◌≡◌};
ghost use Rattle.utf8.specs.Text.{piece_of, lossy, replaced, strict, same_bytes};
ghost use Rattle.leaves.specs.Leaves.{piece_number, one_if};

use crate::answers::one_if;
use utf8::Piece;

// The next piece: 0 at the end, n for a sequence of n bytes, 256 + n for an ill-formed part of n bytes.
#[unsafe(no_mangle)]
pub extern "C" fn leaf_piece(b: &[u8]) -> u64
    ensures { result ≡ piece_number (piece_of b.now) }
{
    match utf8::next(b) {
        Piece::End => 0,
        Piece::WellFormed(n) => n as u64,
        Piece::IllFormed(n) => 256 + n as u64,
    }
}

#[unsafe(no_mangle)]
pub extern "C" fn leaf_reads_as(name: &[u8], text: &[u8]) -> u64
    ensures { result ≡ one_if (same_bytes (lossy name.now) text.now) }
{
    one_if(utf8::reads_as(name, text))
}

#[unsafe(no_mangle)]
pub extern "C" fn leaf_is_utf8(b: &[u8]) -> u64
    ensures { result ≡ one_if (strict b.now) }
{
    one_if(utf8::is_utf8(b))
}

#[unsafe(no_mangle)]
pub extern "C" fn leaf_replaced(b: &[u8]) -> u64
    ensures { result ≡ replaced b.now }
{
    utf8::replaced_parts(b) as u64
}
