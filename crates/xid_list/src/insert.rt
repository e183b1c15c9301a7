// Numbers of 8 bytes in a buffer, greatest first.
ghost use Rattle.std.specs.Prelude.{◌≡◌, ◌+◌, ◌*◌, ◌≤◌, max, min, length};
ghost use Rattle.std.proofs.lemmas.List.Edits.{sets};
ghost use Rattle.byte_fields.specs.Number.{little, little_bytes};
ghost use Rattle.checkpoints.specs.Numbers.{insert};
ghost use Rattle.xid_list.specs.Listed.{bytes_of};
ghost use Rattle.xid_list.specs.Inner.{held_in};

use byte_fields::{eight, put_little};

// The greater of x and the number at a place stays there; the lesser is the answer.
#[tactic(auto, using(crate::proofs::Inserts::carry_own, crate::proofs::Inserts::carry_kept, crate::proofs::Inserts::carry_other, crate::proofs::Inserts::carry_stored))]
fn carry(out: &mut [u8], at: usize, x: u64) -> u64
    requires { at + 8 ≤ length out.old }
    ensures { (result ≡ min x (little 8 out.old at)) × (out.new ≡ sets out.old at (little_bytes 8 (max x (little 8 out.old at)))) }
{
    let y = eight(out, at);
    if x < y {
        return x;
    }
    put_little(out, at, 8, x);
    y
}

// A number more among the n that stand at the front, greatest first.
#[tactic(auto, using(crate::proofs::Inserts::insert_start, crate::proofs::Held::insert_held))]
pub fn insert_number(out: &mut [u8], n: usize, xid: u64)
    requires { 8 * n + 8 ≤ length out.old }
    ensures { (out.new ≡ sets out.old 0 (bytes_of (insert xid (held_in out.old 0 n)))) × (held_in out.new 0 (n + 1) ≡ insert xid (held_in out.old 0 n)) }
{
    let mut x = xid;
    for j in 0..n {
        x = carry(out, 8 * j, x);
    }
    put_little(out, 8 * n, 8, x);
}
