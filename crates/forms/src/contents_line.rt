// The data of a node: a file's bytes, or that it is packed.
ghost use Rattle.std.specs.Prelude.{◌≡◌, []};
ghost use Rattle.text.specs.Output.{output_of, puts};
ghost use Rattle.files.specs.File.{size_of};
ghost use Rattle.lines.specs.Shown.{plain};
ghost use Rattle.lines.specs.Lines.{contents_line};
ghost use Rattle.btree.specs.Scan.{scan_of};
ghost use Rattle.cursor.specs.Left.{run_at, Begins};
ghost use Rattle.cursor.specs.Way.{Leads};
ghost use Rattle.records.specs.Extent.{extent_at};
ghost use Rattle.lists.specs.Lists.{search_of};
ghost use Rattle.extents.specs.Extents.{disk_of};
ghost use Rattle.streams.specs.Inner.{run_bytes};
ghost use Rattle.forms.specs.Course.{data_course};
ghost use Rattle.forms.specs.Inner.{go, stand_of, plain_course};

use crate::reading::read;
use contents::settle_whole;
use cursor::{Step, Way, first};
use error::Refusal;
use files::size_of;
use inode_record::Inode;
use lists::{list_on, search};
use lookup::Counted;
use streams::put_stream_from;
use text::put_all;
use volume::Volume;

// The line of a file that can be read whole, its extents from a step on.
fn put_bytes(
    out: &mut [u8],
    room: usize,
    p: Result<usize, Refusal>,
    image: &[u8],
    v: Volume,
    i: Inode,
    start: Step,
) -> Result<usize, Refusal>
    ensures { output_of result out.new ≡ puts room (contents_line (plain (run_bytes (extent_at v.reader image.now) (disk_of v.reader image.now) (size_of i) 0 (run_at image.now (search_of v i.ids.private_id 8) start start.from))) []) (output_of p out.old) }
{
    let ids = i.ids;
    let size = size_of(i);
    let a = put_all(out, room, p, b"(data x");
    let b = put_stream_from(out, room, a, image, v, ids.private_id, size, start);
    put_all(out, room, b, b")\n")
}

// A file's extents go by its private id, which mostly is its own.
fn extents_on(image: &[u8], v: Volume, i: Inode, w: Way) -> Step
    requires { Leads image.now (search_of v i.id 3) 0 w }
    ensures { Begins image.now (search_of v i.ids.private_id 8) result (scan_of image.now (search_of v i.ids.private_id 8) 0) }
{
    let ids = i.ids;
    if ids.private_id == i.id {
        return list_on(image, v, i.id, 8, w, 0);
    }
    first(image, search(v, ids.private_id, 8), 0)
}

fn put_plain(
    out: &mut [u8],
    room: usize,
    p: Counted<usize>,
    image: &[u8],
    v: Volume,
    i: Inode,
    w: Way,
) -> Counted<usize>
    requires { Leads image.now (search_of v i.id 3) 0 w }
    ensures { stand_of result out.new ≡ go room (plain_course image.now v i) (stand_of p out.old) }
{
    let start = extents_on(image, v, i, w);
    let s = settle_whole(image, v, i, start);
    let q = read(p, s);
    let at = q.answer;
    if let Err(_) = at {
        return q;
    }
    Counted {
        answer: put_bytes(out, room, at, image, v, i, start),
        nodes: q.nodes,
    }
}

// Nothing is read once the position is refused.
pub fn put_data(
    out: &mut [u8],
    room: usize,
    p: Counted<usize>,
    image: &[u8],
    v: Volume,
    i: Inode,
    w: Way,
) -> Counted<usize>
    requires { Leads image.now (search_of v i.id 3) 0 w }
    ensures { stand_of result out.new ≡ go room (data_course image.now v i) (stand_of p out.old) }
{
    let at = p.answer;
    if let Err(_) = at {
        return p;
    }
    let owner = i.owner;
    if owner.bsd_flags / 32 % 2 == 1 {
        return Counted {
            answer: put_all(out, room, at, b"(packed)\n"),
            nodes: p.nodes,
        };
    }
    put_plain(out, room, p, image, v, i, w)
}
