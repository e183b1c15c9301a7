// `(replaced N)` and LF.
ghost use Rattle.std.specs.Prelude.{◌≡◌, []};
ghost use Rattle.text.specs.Output.{output_of, puts};
ghost use Rattle.calls.specs.Filled.{filled_at, filled};
ghost use Rattle.replaced_line.specs.Line.{replaced_line};

use error::Refusal;
use text::{put_all, put_decimal};

fn put_line(
    out: &mut [u8],
    room: usize,
    p: Result<usize, Refusal>,
    n: u64,
) -> Result<usize, Refusal>
    ensures { output_of result out.new ≡ puts room (replaced_line n []) (output_of p out.old) }
{
    let a = put_all(out, room, p, b"(replaced ");
    let b = put_decimal(out, room, a, n);
    put_all(out, room, b, b")\n")
}

// Measured first: a buffer that is too short is left as it was.
pub fn show(n: u64, out: &mut [u8]) -> Result<usize, Refusal>
    ensures { filled_at result out.new ≡ filled (replaced_line n []) out.old }
{
    let room = out.len();
    match put_line(&mut out[..0], room, Ok(0), n) {
        Err(e) => Err(e),
        Ok(_) => put_line(out, room, Ok(0), n),
    }
}
