// `(record KEY VALUE)` and LF.
ghost use Rattle.std.specs.Prelude.{◌≡◌, [], ◌∷◌};
ghost use Rattle.text.specs.Output.{output_of, puts};
ghost use Rattle.text.specs.Words.{bytes, bytes?, words};
ghost use Rattle.node.specs.Place.{placed_value};
ghost use Rattle.obj.specs.Block.{block_of};
ghost use Rattle.calls.specs.Filled.{filled_at, filled};
ghost use Rattle.marks.specs.Record.{shown, record_line};

use byte_fields::part;
use error::Refusal;
use node::{Place, held_value, key_in};
use obj::Reader;
use text::{put_all, put_hex};

fn put_bytes(
    out: &mut [u8],
    room: usize,
    p: Result<usize, Refusal>,
    b: &[u8],
) -> Result<usize, Refusal>
    ensures { output_of result out.new ≡ puts room (words (bytes b.now ∷ []) []) (output_of p out.old) }
{
    let a = put_all(out, room, p, b" x");
    put_hex(out, room, a, b)
}

#[tactic(auto, using(crate::proofs::Lines::value_there, crate::proofs::Lines::value_gone))]
fn put_value(
    out: &mut [u8],
    room: usize,
    p: Result<usize, Refusal>,
    b: &[u8],
    place: Place,
) -> Result<usize, Refusal>
    ensures { output_of result out.new ≡ puts room (words (bytes? (shown b.now (placed_value place)) ∷ []) []) (output_of p out.old) }
{
    match held_value(place) {
        Some(v) => put_bytes(out, room, p, part(b, v)),
        None => put_all(out, room, p, b" -"),
    }
}

// The line of the record at a place in the block b.
#[tactic(auto, using(crate::proofs::Lines::record_put))]
fn put_record(
    out: &mut [u8],
    room: usize,
    p: Result<usize, Refusal>,
    b: &[u8],
    place: Place,
) -> Result<usize, Refusal>
    ensures { output_of result out.new ≡ puts room (record_line b.now place []) (output_of p out.old) }
{
    let a = put_all(out, room, p, b"(record");
    let c = put_bytes(out, room, a, key_in(b, place));
    let d = put_value(out, room, c, b, place);
    put_all(out, room, d, b")\n")
}

// Measured first: a buffer that is too short is left as it was.
#[tactic(auto, using(calls::proofs::Filling::filled_short, calls::proofs::Filling::filled_written))]
fn show_in(b: &[u8], place: Place, out: &mut [u8]) -> Result<usize, Refusal>
    ensures { filled_at result out.new ≡ filled (record_line b.now place []) out.old }
{
    let room = out.len();
    put_record(&mut out[..0], room, Ok(0), b, place)?;
    put_record(out, room, Ok(0), b, place)
}

pub fn show_record(
    reader: Reader,
    image: &[u8],
    place: Place,
    out: &mut [u8],
) -> Result<usize, Refusal>
    ensures { filled_at result out.new ≡ filled (record_line (block_of reader image.now place.block) place []) out.old }
{
    show_in(reader.block(image, place.block), place, out)
}
