// Bytes that come one after the other, written as they are, or read as a text.
ghost use Rattle.std.specs.Prelude.{◌≡◌, List, [], ◌++◌, ℕ, replicate};
ghost use Rattle.text.specs.Output.{at, output_of, puts};
ghost use Rattle.links.specs.Inner.{fed_as, begun_as};

use error::Refusal;
use feed::{Feed, begin, finish, push_all, push_zeros};
use streams::put_copies;
use text::put_all;

#[tactic(auto, unfolding(crate::specs::Inner::fed_as, crate::specs::Inner::begun_as, feed::specs::Fed::begun))]
pub fn feed_begin(raw: bool, marks: bool) -> Feed
    ensures { (room : ℕ) (b xs : List ℕ) → fed_as raw room result b xs ≡ puts room (begun_as raw marks xs) (at b 0) }
{
    let f = begin(Ok(0), marks);
    if raw {
        return Feed {
            position: Ok(0),
            ..f
        };
    }
    f
}

#[tactic(auto, using(text::proofs::Writing::puts_append), unfolding(crate::specs::Inner::fed_as))]
pub fn feed_all(out: &mut [u8], room: usize, raw: bool, f: Feed, bytes: &[u8]) -> Feed
    ensures { (xs : List ℕ) → fed_as raw room result out.new xs ≡ fed_as raw room f out.old (bytes.now ++ xs) }
{
    if raw {
        return Feed {
            position: put_all(out, room, f.position, bytes),
            ..f
        };
    }
    push_all(out, room, f, bytes)
}

#[tactic(auto, using(text::proofs::Writing::puts_append), unfolding(crate::specs::Inner::fed_as))]
pub fn feed_zeros(out: &mut [u8], room: usize, raw: bool, f: Feed, n: u64) -> Feed
    ensures { (xs : List ℕ) → fed_as raw room result out.new xs ≡ fed_as raw room f out.old (replicate n 0 ++ xs) }
{
    if raw {
        return Feed {
            position: put_copies(out, room, f.position, 0, n),
            ..f
        };
    }
    push_zeros(out, room, f, n)
}

// No more bytes come.
#[tactic(auto, unfolding(crate::specs::Inner::fed_as, text::specs::Output::puts))]
pub fn feed_end(out: &mut [u8], room: usize, raw: bool, f: Feed) -> Result<usize, Refusal>
    ensures { output_of result out.new ≡ fed_as raw room f out.old [] }
{
    if raw {
        return f.position;
    }
    finish(out, room, f)
}
