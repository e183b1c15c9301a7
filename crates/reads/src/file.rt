// The bytes of a file from an offset on.
ghost use Rattle.std.specs.Prelude.{◌≡◌, length};
ghost use Rattle.files.specs.File.{read_file};
ghost use Rattle.calls.specs.Filled.{called_by, answered};
ghost use Rattle.reads.specs.Reads.{read_on, read_counted};

use files::read_at;
use inode_record::Inode;
use lists::inode;
use lookup::Counted;
use volume::{Volume, Which, open_at};

fn read_of(
    image: &[u8],
    v: Volume,
    i: Inode,
    offset: u64,
    nodes: u64,
    out: &mut [u8],
) -> Counted<usize>
    ensures { called_by result out.new ≡ answered (read_file image.now v i offset (length out.old) nodes) out.old }
{
    let done = read_at(image, v, i, offset, out, nodes);
    let count = done.answer;
    match count {
        Ok(n) => Counted {
            answer: Ok(n as usize),
            nodes: done.nodes,
        },
        Err(w) => Counted {
            answer: Err(w),
            nodes: done.nodes,
        },
    }
}

fn read_on(
    image: &[u8],
    v: Volume,
    id: u64,
    offset: u64,
    nodes: u64,
    out: &mut [u8],
) -> Counted<usize>
    ensures { called_by result out.new ≡ answered (read_on image.now v id offset (length out.old) nodes) out.old }
{
    let found = inode(image, v, id, nodes);
    let read = found.answer;
    match read {
        Ok(i) => read_of(image, v, i, offset, found.nodes, out),
        Err(w) => Counted {
            answer: Err(w),
            nodes: found.nodes,
        },
    }
}

pub fn read_text(image: &[u8], which: Which, id: u64, offset: u64, out: &mut [u8]) -> Counted<usize>
    ensures { called_by result out.new ≡ answered (read_counted image.now which id offset (length out.old)) out.old }
{
    let opened = open_at(image, which);
    let volume = opened.answer;
    match volume {
        Ok(v) => read_on(image, v, id, offset, opened.nodes, out),
        Err(w) => Counted {
            answer: Err(w),
            nodes: opened.nodes,
        },
    }
}
