// The line of a node.
ghost use Rattle.std.specs.Prelude.{◌≡◌, [], ◌∷◌};
ghost use Rattle.text.specs.Output.{output_of, puts};
ghost use Rattle.text.specs.Words.{bytes?, two?, words};
ghost use Rattle.lines.specs.Shown.{name_shown, stream_shown, inode_shown};
ghost use Rattle.lines.specs.Inner.{time_words, owner_words, node_head};
ghost use Rattle.lines.specs.Lines.{node_line};

use crate::word::{put_name, put_number, put_pair, put_signed_number, put_three};
use error::Refusal;
use inode_record::{Dstream, Inode, Owner, Times, inode_name};
use names::Name;
use node::Place;
use obj::Reader;
use text::{put_all, put_byte};

fn put_times(
    out: &mut [u8],
    room: usize,
    p: Result<usize, Refusal>,
    t: Times,
) -> Result<usize, Refusal>
    ensures { output_of result out.new ≡ puts room (time_words t []) (output_of p out.old) }
{
    let a = put_number(out, room, p, t.create);
    let b = put_number(out, room, a, t.modify);
    let c = put_number(out, room, b, t.change);
    put_number(out, room, c, t.access)
}

fn put_owner(
    out: &mut [u8],
    room: usize,
    p: Result<usize, Refusal>,
    o: Owner,
) -> Result<usize, Refusal>
    ensures { output_of result out.new ≡ puts room (owner_words o []) (output_of p out.old) }
{
    let a = put_number(out, room, p, o.internal_flags);
    let b = put_signed_number(out, room, a, o.links);
    let c = put_number(out, room, b, o.bsd_flags as u64);
    put_three(out, room, c, o.owner as u64, o.group as u64, o.mode as u64)
}

// What comes before the name.
fn put_head(
    out: &mut [u8],
    room: usize,
    p: Result<usize, Refusal>,
    inode: Inode,
) -> Result<usize, Refusal>
    ensures { output_of result out.new ≡ puts room (node_head inode []) (output_of p out.old) }
{
    let ids = inode.ids;
    let times = inode.times;
    let owner = inode.owner;
    let a = put_all(out, room, p, b"(node");
    let b = put_three(out, room, a, inode.id, ids.parent, ids.private_id);
    let c = put_times(out, room, b, times);
    put_owner(out, room, c, owner)
}

#[tactic(auto, using(crate::proofs::Laws::all))]
fn put_label(
    out: &mut [u8],
    room: usize,
    p: Result<usize, Refusal>,
    image: &[u8],
    reader: Reader,
    place: Place,
    name: Option<Name>,
) -> Result<usize, Refusal>
    ensures { output_of result out.new ≡ puts room (words (bytes? (name_shown reader image.now place name) ∷ []) []) (output_of p out.old) }
{
    let Some(n) = name else {
        return put_all(out, room, p, b" -");
    };
    put_name(out, room, p, inode_name(reader, image, place, n))
}

fn put_stream(
    out: &mut [u8],
    room: usize,
    p: Result<usize, Refusal>,
    stream: Option<Dstream>,
) -> Result<usize, Refusal>
    ensures { output_of result out.new ≡ puts room (words (two? (stream_shown stream) ∷ []) []) (output_of p out.old) }
{
    match stream {
        None => put_all(out, room, p, b" -"),
        Some(d) => put_pair(out, room, p, d.size, d.alloced_size),
    }
}

pub fn put_node_line(
    out: &mut [u8],
    room: usize,
    p: Result<usize, Refusal>,
    image: &[u8],
    reader: Reader,
    inode: Inode,
) -> Result<usize, Refusal>
    ensures { output_of result out.new ≡ puts room (node_line (inode_shown reader image.now inode) []) (output_of p out.old) }
{
    let place = inode.place;
    let fields = inode.fields;
    let name = fields.name;
    let stream = fields.stream;
    let a = put_head(out, room, p, inode);
    let b = put_label(out, room, a, image, reader, place, name);
    let c = put_stream(out, room, b, stream);
    put_byte(out, room, c, b'\n')
}
