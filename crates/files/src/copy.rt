// An extent's bytes, copied into the buffer.
ghost use Rattle.std.specs.Prelude.{◌≡◌, [], ◌∷◌, ◌+◌, ◌^◌, ◌≤◌, ◌<◌, length, replicate};
ghost use Rattle.cursor.specs.Left.{run_at};
ghost use Rattle.records.specs.Extent.{extent_at};
ghost use Rattle.lists.specs.Inner.{readable};
ghost use Rattle.extents.specs.Verdict.{fine};
ghost use Rattle.extents.specs.Extents.{disk_of, allows};
ghost use Rattle.files.specs.Inner.{lay, Ready};

use btree::Search;
use cursor::{Step, next};
use extents::block_size;
use lists::{Seen, extent_in};
use obj::Reader;
use records::Extent;
use text::copy;

// An extent that was allowed, laid over the bytes of the file from off on.
#[tactic(auto, using(crate::proofs::PasteLaws::laying))]
pub fn lay_at(image: &[u8], reader: Reader, off: u64, out: &mut [u8], e: Extent)
    requires { (off + length out.old < 2 ^ 64) × (allows (disk_of reader image.now) off (off + length out.old) e ≡ fine) }
    ensures { out.new ≡ lay (disk_of reader image.now) off (e ∷ []) out.old }
{
    let stop = off + out.len() as u64;
    let a = off.max(e.logical);
    let b = stop.min(e.logical + e.len);
    if b <= a || e.phys_block == 0 {
        return;
    }
    let from = (e.phys_block * block_size(reader) + (a - e.logical)) as usize;
    let len = (b - a) as usize;
    let at = (a - off) as usize;
    copy(&mut out[at..at + len], &image[from..from + len]);
}

// The bytes of the file from off on: zeros, and over them the extents from an entry of a step on, which were decided upon.
#[tactic(auto, using(crate::proofs::CopyTurns::fills))]
pub fn fill(image: &[u8], q: Search, off: u64, out: &mut [u8], kept: Step, from: u32)
    requires { (off + length out.old < 2 ^ 64) × Ready (disk_of q.keys.reader image.now) off (off + length out.old) (readable (extent_at q.keys.reader image.now) (run_at image.now q kept from)) }
    ensures { out.new ≡ lay (disk_of q.keys.reader image.now) off (readable (extent_at q.keys.reader image.now) (run_at image.now q kept from)) (replicate (length out.old) 0) }
{
    out.fill(0);
    let stop = off + out.len() as u64;
    let mut s = kept;
    let mut i = from;
    loop {
        match extent_in(image, q.keys, s.reached, i) {
            Seen::Over | Seen::Refused(_) => return,
            Seen::Passed => {
                s = next(image, q, s.path, s.level, s.nodes);
                i = s.from;
            }
            Seen::Element(e, after) => {
                if stop <= e.logical {
                    return;
                }
                lay_at(image, q.keys.reader, off, out, e);
                i = after;
            }
        }
    }
}
