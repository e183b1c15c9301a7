// Any of the calls at a desk whose nodes are counted.
ghost use Rattle.std.specs.Prelude.{◌≡◌, length};
ghost use Rattle.desks.specs.Requests.{asked, result_for, buffer_for, nodes_of};
ghost use Rattle.desks.specs.Desks.{added};

use desks::DeskCounts;

// A call at a desk: its answer, its buffer, and the dock's record.
#[unsafe(no_mangle)]
pub extern "C" fn apfs_desk(
    counts: &mut DeskCounts,
    desk: u64,
    what: u64,
    image: &[u8],
    numbered: u64,
    xid: u64,
    volume: u64,
    a: u64,
    b: u64,
    c: u64,
    path: &[u8],
    out: &mut [u8],
) -> i64
    ensures { (result ≡ result_for (asked what image.now numbered xid volume a b c path.now (length out.old)) out.old)
        × (out.new ≡ buffer_for (asked what image.now numbered xid volume a b c path.now (length out.old)) out.old)
        × (counts.new.counts ≡ added counts.old.counts desk (nodes_of (asked what image.now numbered xid volume a b c path.now (length out.old)))) }
{
    apfs::apfs_desk(
        counts, desk, what, image, numbered, xid, volume, a, b, c, path, out,
    )
}
