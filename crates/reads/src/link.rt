// The text of a symbolic link.
ghost use Rattle.std.specs.Prelude.{◌≡◌};
ghost use Rattle.links.specs.Link.{link_of};
ghost use Rattle.calls.specs.Filled.{called_by, answered};
ghost use Rattle.reads.specs.Reads.{link_on, link_counted};

use inode_record::Inode;
use links::read_link;
use lists::inode;
use lookup::Counted;
use volume::{Volume, Which, open_at};

fn link_of(image: &[u8], v: Volume, i: Inode, nodes: u64, out: &mut [u8]) -> Counted<usize>
    ensures { called_by result out.new ≡ answered (link_of image.now v i nodes) out.old }
{
    let done = read_link(image, v, i, out, nodes);
    let count = done.answer;
    match count {
        Ok(n) => Counted {
            answer: Ok(n as usize),
            nodes: done.nodes,
        },
        Err(w) => Counted {
            answer: Err(w),
            nodes: done.nodes,
        },
    }
}

fn link_on(image: &[u8], v: Volume, id: u64, nodes: u64, out: &mut [u8]) -> Counted<usize>
    ensures { called_by result out.new ≡ answered (link_on image.now v id nodes) out.old }
{
    let found = inode(image, v, id, nodes);
    let read = found.answer;
    match read {
        Ok(i) => link_of(image, v, i, found.nodes, out),
        Err(w) => Counted {
            answer: Err(w),
            nodes: found.nodes,
        },
    }
}

pub fn link_text(image: &[u8], which: Which, id: u64, out: &mut [u8]) -> Counted<usize>
    ensures { called_by result out.new ≡ answered (link_counted image.now which id) out.old }
{
    let opened = open_at(image, which);
    let volume = opened.answer;
    match volume {
        Ok(v) => link_on(image, v, id, opened.nodes, out),
        Err(w) => Counted {
            answer: Err(w),
            nodes: opened.nodes,
        },
    }
}
