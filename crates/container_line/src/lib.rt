// The line of a container that is opened.
#![tactic(auto)]

ghost use Rattle.std.specs.Prelude.{◌≡◌, [], ◌∷◌};
ghost use Rattle.text.specs.Output.{output_of, puts};
ghost use Rattle.text.specs.Words.{digits};
ghost use Rattle.nx.specs.Slots.{volumes_of};
ghost use Rattle.calls.specs.Filled.{filled_at, filled, called_by, answered};
ghost use Rattle.container_line.specs.Container.{number_words, container_head, container_text, open_counted};

use checkpoints::{Choice, Superblock};
use error::Refusal;
use lookup::Counted;
use nx::{Container, slot_count, slot_of};
use text::{put_all, put_byte, put_decimal};

// A number after a space.
#[tactic(auto, using(text::proofs::Writing::then_byte))]
fn put_word(
    out: &mut [u8],
    room: usize,
    p: Result<usize, Refusal>,
    n: u64,
) -> Result<usize, Refusal>
    ensures { output_of result out.new ≡ puts room (32 ∷ digits n []) (output_of p out.old) }
{
    let q = put_byte(out, room, p, 32);
    put_decimal(out, room, q, n)
}

// The object ids of the volumes, each after a space.
#[tactic(auto, using(crate::proofs::Lines::volumes_start))]
fn put_volumes(
    out: &mut [u8],
    room: usize,
    p: Result<usize, Refusal>,
    image: &[u8],
    sb: Superblock,
) -> Result<usize, Refusal>
    ensures { output_of result out.new ≡ puts room (number_words (volumes_of image.now sb) []) (output_of p out.old) }
{
    let n = slot_count(sb);
    let mut q = p;
    for i in 0..n {
        let oid = slot_of(image, sb, i);
        if oid == 0 {
            continue;
        }
        q = put_word(out, room, q, oid);
    }
    q
}

fn put_head(
    out: &mut [u8],
    room: usize,
    p: Result<usize, Refusal>,
    size: u64,
    count: u64,
    xid: u64,
) -> Result<usize, Refusal>
    ensures { output_of result out.new ≡ puts room (container_head size count xid []) (output_of p out.old) }
{
    let a = put_all(out, room, p, b"(container");
    let b = put_word(out, room, a, size);
    let c = put_word(out, room, b, count);
    put_word(out, room, c, xid)
}

#[tactic(auto, using(crate::proofs::Lines::then_head, crate::proofs::Lines::then_numbers), unfolding(crate::specs::Container::container_text))]
fn put_container(
    out: &mut [u8],
    room: usize,
    p: Result<usize, Refusal>,
    image: &[u8],
    c: Container,
) -> Result<usize, Refusal>
    ensures { output_of result out.new ≡ puts room (container_text image.now c []) (output_of p out.old) }
{
    let sb = c.sb;
    let reader = c.reader;
    let a = put_head(
        out,
        room,
        p,
        reader.block_size as u64,
        reader.block_count,
        sb.xid,
    );
    let b = put_volumes(out, room, a, image, sb);
    put_all(out, room, b, b")\n")
}

// Measured first: a buffer that is too short is left as it was.
#[tactic(auto, using(calls::proofs::Filling::filled_short, calls::proofs::Filling::filled_written))]
fn show(image: &[u8], c: Container, out: &mut [u8]) -> Result<usize, Refusal>
    ensures { filled_at result out.new ≡ filled (container_text image.now c []) out.old }
{
    let room = out.len();
    put_container(&mut out[..0], room, Ok(0), image, c)?;
    put_container(out, room, Ok(0), image, c)
}

#[tactic(auto, unfolding(crate::specs::Container::open_counted))]
pub fn open_line(image: &[u8], choice: Choice, out: &mut [u8]) -> Counted<usize>
    ensures { called_by result out.new ≡ answered (open_counted choice image.now) out.old }
{
    let opened = nx::open(image, choice);
    let answer = match opened.answer {
        Ok(c) => show(image, c, out),
        Err(e) => Err(e),
    };
    Counted {
        nodes: opened.nodes,
        answer,
    }
}
