// The line of a measurement.
ghost use Rattle.std.specs.Prelude.{◌≡◌, []};
ghost use Rattle.text.specs.Output.{output_of, puts};
ghost use Rattle.calls.specs.Filled.{filled_at, filled, answered, called_by};
ghost use Rattle.measure.specs.Line.{numbers_line, measured_on, measure_counted};

use crate::gauge::measure_volume;
use error::Refusal;
use lookup::Counted;
use text::{put_all, put_decimal};
use volume::{Volume, Which, open_at};

fn put_measure(
    out: &mut [u8],
    room: usize,
    p: Result<usize, Refusal>,
    length: u64,
    depth: u64,
) -> Result<usize, Refusal>
    ensures { output_of result out.new ≡ puts room (numbers_line length depth []) (output_of p out.old) }
{
    let a = put_all(out, room, p, b"(measure ");
    let b = put_decimal(out, room, a, length);
    let c = put_all(out, room, b, b" ");
    let d = put_decimal(out, room, c, depth);
    put_all(out, room, d, b")\n")
}

// Measured first: a buffer that is too short is left as it was.
fn show(length: u64, depth: u64, out: &mut [u8]) -> Result<usize, Refusal>
    ensures { filled_at result out.new ≡ filled (numbers_line length depth []) out.old }
{
    let room = out.len();
    match put_measure(&mut out[..0], room, Ok(0), length, depth) {
        Err(e) => Err(e),
        Ok(_) => put_measure(out, room, Ok(0), length, depth),
    }
}

fn volume_line(image: &[u8], v: Volume, nodes: u64, out: &mut [u8]) -> Counted<usize>
    ensures { called_by result out.new ≡ answered (measured_on image.now v nodes) out.old }
{
    let mut none = [0u8; 1];
    let g = measure_volume(image, v, &mut none[..0], nodes);
    match g.answer {
        Ok(m) => Counted {
            answer: show(m.length, m.depth, out),
            nodes: g.nodes,
        },
        Err(e) => Counted {
            answer: Err(e),
            nodes: g.nodes,
        },
    }
}

pub fn measure_text(image: &[u8], which: Which, out: &mut [u8]) -> Counted<usize>
    ensures { called_by result out.new ≡ answered (measure_counted image.now which) out.old }
{
    let opened = open_at(image, which);
    let volume = opened.answer;
    match volume {
        Ok(v) => volume_line(image, v, opened.nodes, out),
        Err(e) => Counted {
            answer: Err(e),
            nodes: opened.nodes,
        },
    }
}
