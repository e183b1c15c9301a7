// A text written piece by piece.
ghost use Rattle.std.specs.Prelude.{◌≡◌};
ghost use Rattle.error.specs.Answer.{pick};
ghost use Rattle.utf8.specs.Text.{piece_of, size_of};
ghost use Rattle.text.specs.Output.{output_of, puts};
ghost use Rattle.feed.specs.Fed.{written_as, shown_as};

use error::Refusal;
use text::put_all;
use utf8::Piece;

// The position after a piece, and how many bytes the piece took.
#[derive(Clone, Copy)]
pub struct Written {
    pub position: Result<usize, Refusal>,
    pub taken: usize,
}

// A text, or what marks it.
fn put_marked(
    out: &mut [u8],
    room: usize,
    p: Result<usize, Refusal>,
    marks: bool,
    mark: &[u8],
    text: &[u8],
) -> Result<usize, Refusal>
    ensures { output_of result out.new ≡ puts room (pick marks mark.now text.now) (output_of p out.old) }
{
    put_all(out, room, p, if marks { mark } else { text })
}

// The piece at the head of the bytes; of none, nothing.
#[tactic(auto, using(crate::proofs::Reading::one_piece))]
pub fn put_piece(
    out: &mut [u8],
    room: usize,
    p: Result<usize, Refusal>,
    b: &[u8],
    marks: bool,
) -> Written
    ensures { (result.taken ≡ size_of (piece_of b.now)) × (output_of result.position out.new ≡ puts room (shown_as marks (piece_of b.now) b.now) (output_of p out.old)) }
{
    match utf8::next(b) {
        Piece::End => Written {
            position: p,
            taken: 0,
        },
        Piece::WellFormed(n) => Written {
            position: put_marked(out, room, p, marks, b"", &b[..n]),
            taken: n,
        },
        Piece::IllFormed(n) => Written {
            position: put_marked(out, room, p, marks, b"\0", b"\xEF\xBF\xBD"),
            taken: n,
        },
    }
}

// A text, piece by piece.
pub fn put_pieces(
    out: &mut [u8],
    room: usize,
    p: Result<usize, Refusal>,
    b: &[u8],
    marks: bool,
) -> Result<usize, Refusal>
    ensures { output_of result out.new ≡ puts room (written_as marks b.now) (output_of p out.old) }
{
    let mut n = p?;
    let mut rest = b;
    while !rest.is_empty() {
        let w = put_piece(out, room, Ok(n), rest, marks);
        n = w.position?;
        rest = &rest[w.taken..];
    }
    Ok(n)
}
