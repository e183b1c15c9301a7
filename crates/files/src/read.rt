// A part of a file (fs.rs, `read_at`).
ghost use Rattle.std.specs.Prelude.{◌≡◌, ◌+◌, ◌-◌, ◌≤◌, min, length};
ghost use Rattle.calls.specs.Filled.{answered};
ghost use Rattle.files.specs.File.{size_of, read_file, read_told};
ghost use Rattle.files.specs.Inner.{stop_of, read_over};

use crate::copy::fill;
use btree::Search;
use error::Refusal;
use extents::judge;
use inode_record::Inode;
use lists::search;
use lookup::Counted;
use volume::Volume;

pub fn size_of(inode: Inode) -> u64
    ensures { result ≡ size_of inode }
{
    inode.fields.stream.map_or(0, |d| d.size)
}

// How many of len bytes from off on a file of a size has.
fn wanted(size: u64, off: u64, len: u64) -> u64
    ensures { result ≡ min len (size - off) }
{
    len.min(size.saturating_sub(off))
}

#[tactic(auto, unfolding(error::specs::Answer::if_le))]
fn stop_of(size: u64, off: u64, n: u64) -> u64
    requires { n ≤ size - off }
    ensures { result ≡ stop_of size off n }
{
    if size <= off {
        return 0;
    }
    off + n
}

// All is decided before the buffer is touched.
#[tactic(auto, using(crate::proofs::FileLaws::calling))]
fn read_over(
    image: &[u8],
    q: Search,
    size: u64,
    off: u64,
    out: &mut [u8],
    nodes: u64,
) -> Counted<u64>
    ensures { read_told result out.new ≡ answered (read_over image.now q size off (length out.old) nodes) out.old }
{
    let n = wanted(size, off, out.len() as u64);
    let j = judge(image, q, off, stop_of(size, off, n), nodes);
    if let Err(e) = j.ruling {
        return Counted {
            answer: Err(e),
            nodes: j.nodes,
        };
    }
    if n == 0 {
        return Counted {
            answer: Ok(0),
            nodes: j.nodes,
        };
    }
    fill(image, q, off, &mut out[..n as usize], j.kept, j.from);
    Counted {
        answer: Ok(n),
        nodes: j.nodes,
    }
}

// The bytes of a file from an offset on, as many as the buffer holds and the file has.
#[tactic(auto, using(crate::proofs::FileLaws::file_compressed))]
pub fn read_at(
    image: &[u8],
    v: Volume,
    inode: Inode,
    offset: u64,
    out: &mut [u8],
    nodes: u64,
) -> Counted<u64>
    ensures { read_told result out.new ≡ answered (read_file image.now v inode offset (length out.old) nodes) out.old }
{
    if inode.owner.bsd_flags / 32 % 2 == 1 {
        return Counted {
            answer: Err(Refusal::Unsupported),
            nodes: nodes,
        };
    }
    let q = search(v, inode.ids.private_id, 8);
    read_over(image, q, size_of(inode), offset, out, nodes)
}
