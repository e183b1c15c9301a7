// Bytes that come one after the other, read up to the first zero byte.
ghost use Rattle.std.specs.Prelude.{◌≡◌, List, [], ◌∷◌, ◌++◌, ℕ, replicate};
ghost use Rattle.text.specs.Output.{output_of};
ghost use Rattle.feed.specs.Fed.{fed, begun, Room};

use crate::pieces::{put_piece, put_pieces};
use crate::window::{Window, count, empty, with, without};
use error::Refusal;

// `ended`: a zero byte came, and nothing after it counts. `marks`: no text is written, but a zero byte for each part of it that is replaced.
#[derive(Clone, Copy)]
pub struct Feed {
    pub marks: bool,
    pub window: Window,
    pub ended: bool,
    pub position: Result<usize, Refusal>,
}

#[tactic(auto, using(crate::proofs::Feeding::begins))]
pub fn begin(p: Result<usize, Refusal>, marks: bool) -> Feed
    ensures { (room : ℕ) (b xs : List ℕ) → fed room result b xs ≡ begun marks room p b xs }
{
    Feed {
        marks: marks,
        window: empty(),
        ended: false,
        position: p,
    }
}

// Room for one byte more: of a full window the first piece is written.
#[tactic(auto, using(crate::proofs::Feeding::room_made))]
fn make_room(out: &mut [u8], room: usize, f: Feed) -> Feed
    ensures { Room room f out.old result out.new }
{
    let w = f.window;
    if w.len < 4 {
        return f;
    }
    let s = put_piece(out, room, f.position, &w.bytes, f.marks);
    Feed {
        window: without(w, s.taken),
        position: s.position,
        ..f
    }
}

// One byte more.
#[tactic(auto, using(crate::proofs::Feeding::ended_any, crate::proofs::Feeding::zero_ends, crate::proofs::Feeding::byte_waits))]
pub fn push(out: &mut [u8], room: usize, f: Feed, b: u8) -> Feed
    ensures { (xs : List ℕ) → fed room result out.new xs ≡ fed room f out.old (b ∷ xs) }
{
    if f.ended {
        return f;
    }
    if b == 0 {
        return Feed { ended: true, ..f };
    }
    let g = make_room(out, room, f);
    Feed {
        window: with(g.window, b),
        ..g
    }
}

pub fn push_all(out: &mut [u8], room: usize, f: Feed, bytes: &[u8]) -> Feed
    ensures { (xs : List ℕ) → fed room result out.new xs ≡ fed room f out.old (bytes.now ++ xs) }
{
    let mut g = f;
    for b in bytes {
        if g.ended || g.position.is_err() {
            return g;
        }
        g = push(out, room, g, *b);
    }
    g
}

// The first of them ends the text.
#[tactic(auto, using(crate::proofs::Feeding::no_zeros, crate::proofs::Feeding::zeros_end))]
pub fn push_zeros(out: &mut [u8], room: usize, f: Feed, n: u64) -> Feed
    ensures { (xs : List ℕ) → fed room result out.new xs ≡ fed room f out.old (replicate n 0 ++ xs) }
{
    if n == 0 {
        return f;
    }
    push(out, room, f, 0)
}

// No more bytes come: what waits is written.
#[tactic(auto, using(crate::proofs::Feeding::finished, crate::proofs::Feeding::count_is))]
pub fn finish(out: &mut [u8], room: usize, f: Feed) -> Result<usize, Refusal>
    ensures { output_of result out.new ≡ fed room f out.old [] }
{
    let w = f.window;
    put_pieces(out, room, f.position, &w.bytes[..count(w)], f.marks)
}
