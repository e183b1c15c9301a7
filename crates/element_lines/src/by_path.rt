// The line of the inode that a path leads to.
ghost use Rattle.std.specs.Prelude.{◌≡◌, []};
ghost use Rattle.lines.specs.Shown.{inode_shown};
ghost use Rattle.lines.specs.Lines.{node_line};
ghost use Rattle.calls.specs.Filled.{filled_at, filled, called_by, answered};
ghost use Rattle.element_lines.specs.Elements.{lookup_on, lookup_counted};

use error::Refusal;
use inode_record::Inode;
use lines::put_node_line;
use lookup::Counted;
use obj::Reader;
use paths::lookup_path;
use volume::{Volume, Which, open_at};

// Measured first: a buffer that is too short is left as it was.
fn show_inode(image: &[u8], reader: Reader, i: Inode, out: &mut [u8]) -> Result<usize, Refusal>
    ensures { filled_at result out.new ≡ filled (node_line (inode_shown reader image.now i) []) out.old }
{
    let room = out.len();
    match put_node_line(&mut out[..0], room, Ok(0), image, reader, i) {
        Err(w) => Err(w),
        Ok(_) => put_node_line(out, room, Ok(0), image, reader, i),
    }
}

fn lookup_on(image: &[u8], v: Volume, path: &[u8], nodes: u64, out: &mut [u8]) -> Counted<usize>
    ensures { called_by result out.new ≡ answered (lookup_on image.now v path.now nodes) out.old }
{
    let found = lookup_path(image, v, path, nodes);
    let reader = v.reader;
    let inode = found.answer;
    match inode {
        Ok(i) => Counted {
            answer: show_inode(image, reader, i, out),
            nodes: found.nodes,
        },
        Err(w) => Counted {
            answer: Err(w),
            nodes: found.nodes,
        },
    }
}

pub fn lookup_text(image: &[u8], which: Which, path: &[u8], out: &mut [u8]) -> Counted<usize>
    ensures { called_by result out.new ≡ answered (lookup_counted image.now which path.now) out.old }
{
    let opened = open_at(image, which);
    let volume = opened.answer;
    match volume {
        Ok(v) => lookup_on(image, v, path, opened.nodes, out),
        Err(w) => Counted {
            answer: Err(w),
            nodes: opened.nodes,
        },
    }
}
