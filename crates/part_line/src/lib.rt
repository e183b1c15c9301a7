// The line of the part of an image that a container is in.
#![tactic(auto)]

ghost use Rattle.std.specs.Prelude.{◌≡◌, []};
ghost use Rattle.text.specs.Output.{output_of, puts};
ghost use Rattle.calls.specs.Filled.{filled_at, filled, filled_by};
ghost use Rattle.part_line.specs.Line.{part_line, part_text};

use byte_fields::Span;
use error::Refusal;
use gpt::part_of_image;
use text::{put_all, put_decimal};

fn put_part(
    out: &mut [u8],
    room: usize,
    p: Result<usize, Refusal>,
    s: Span,
) -> Result<usize, Refusal>
    ensures { output_of result out.new ≡ puts room (part_line s []) (output_of p out.old) }
{
    let a = put_all(out, room, p, b"(part ");
    let b = put_decimal(out, room, a, s.start as u64);
    let c = put_all(out, room, b, b" ");
    let d = put_decimal(out, room, c, s.len as u64);
    put_all(out, room, d, b")\n")
}

// Measured first: a buffer that is too short is left as it was.
#[tactic(auto, using(calls::proofs::Filling::filled_short, calls::proofs::Filling::filled_written))]
fn show(s: Span, out: &mut [u8]) -> Result<usize, Refusal>
    ensures { filled_at result out.new ≡ filled (part_line s []) out.old }
{
    let room = out.len();
    put_part(&mut out[..0], room, Ok(0), s)?;
    put_part(out, room, Ok(0), s)
}

#[tactic(auto, unfolding(crate::specs::Line::part_text))]
pub fn part_text(image: &[u8], out: &mut [u8]) -> Result<usize, Refusal>
    ensures { filled_at result out.new ≡ filled_by (part_text image.now) out.old }
{
    let s = part_of_image(image)?;
    show(s, out)
}
