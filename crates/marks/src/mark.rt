// The 24 bytes of a place.
ghost use Rattle.std.specs.Prelude.{◌≡◌, ◌++◌, ◌≤◌, length, drop};
ghost use Rattle.calls.specs.Filled.{filled_at, filled};
ghost use Rattle.marks.specs.Mark.{mark_bytes, place_in};

use byte_fields::{eight, four, put_little};
use error::Refusal;
use node::Place;

fn put_mark(p: Place, out: &mut [u8])
    requires { 24 ≤ length out.old }
    ensures { out.new ≡ mark_bytes p ++ drop 24 out.old }
{
    put_little(out, 0, 8, p.block);
    put_little(out, 8, 4, p.key_off as u64);
    put_little(out, 12, 4, p.key_len as u64);
    put_little(out, 16, 4, p.val_off as u64);
    put_little(out, 20, 4, p.val_len as u64);
}

#[tactic(auto, using(crate::proofs::Kept::mark_short, crate::proofs::Kept::mark_filled))]
pub fn show_mark(p: Place, out: &mut [u8]) -> Result<usize, Refusal>
    ensures { filled_at result out.new ≡ filled (mark_bytes p) out.old }
{
    if out.len() < 24 {
        return Err(Refusal::BufferTooShort);
    }
    put_mark(p, out);
    Ok(24)
}

// The place that 24 bytes say.
#[tactic(auto, unfolding(crate::specs::Mark::place_in))]
pub fn place_in(mark: &[u8]) -> Place
    requires { 24 ≤ length mark.now }
    ensures { result ≡ place_in mark.now }
{
    Place {
        block: eight(mark, 0),
        key_off: four(mark, 8),
        key_len: four(mark, 12),
        val_off: four(mark, 16),
        val_len: four(mark, 20),
    }
}
