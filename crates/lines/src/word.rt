// Words, each after a space.
ghost use Rattle.std.specs.Prelude.{◌≡◌, [], ◌∷◌};
ghost use Rattle.std.specs.Prelude.{Some};
ghost use Rattle.utf8.specs.Text.{lossy};
ghost use Rattle.text.specs.Output.{output_of, puts};
ghost use Rattle.text.specs.Words.{digits, signed, bytes, two?, words};

use error::Refusal;
use text::{put_all, put_byte, put_decimal, put_lossy_hex, put_signed};

pub fn put_number(
    out: &mut [u8],
    room: usize,
    p: Result<usize, Refusal>,
    n: u64,
) -> Result<usize, Refusal>
    ensures { output_of result out.new ≡ puts room (words (digits n ∷ []) []) (output_of p out.old) }
{
    let q = put_byte(out, room, p, b' ');
    put_decimal(out, room, q, n)
}

// The lossy reading of a name.
pub fn put_name(
    out: &mut [u8],
    room: usize,
    p: Result<usize, Refusal>,
    name: &[u8],
) -> Result<usize, Refusal>
    ensures { output_of result out.new ≡ puts room (words (bytes (lossy name.now) ∷ []) []) (output_of p out.old) }
{
    let q = put_all(out, room, p, b" x");
    put_lossy_hex(out, room, q, name)
}

pub fn put_signed_number(
    out: &mut [u8],
    room: usize,
    p: Result<usize, Refusal>,
    n: i32,
) -> Result<usize, Refusal>
    ensures { output_of result out.new ≡ puts room (words (signed n ∷ []) []) (output_of p out.old) }
{
    let q = put_byte(out, room, p, b' ');
    put_signed(out, room, q, n)
}

pub fn put_three(
    out: &mut [u8],
    room: usize,
    p: Result<usize, Refusal>,
    l: u64,
    m: u64,
    n: u64,
) -> Result<usize, Refusal>
    ensures { output_of result out.new ≡ puts room (words (digits l ∷ digits m ∷ digits n ∷ []) []) (output_of p out.old) }
{
    let a = put_number(out, room, p, l);
    let b = put_number(out, room, a, m);
    put_number(out, room, b, n)
}

// Two numbers with a comma between them.
pub fn put_pair(
    out: &mut [u8],
    room: usize,
    p: Result<usize, Refusal>,
    m: u64,
    n: u64,
) -> Result<usize, Refusal>
    ensures { output_of result out.new ≡ puts room (words (two? (Some (m, n)) ∷ []) []) (output_of p out.old) }
{
    let a = put_number(out, room, p, m);
    let b = put_byte(out, room, a, b',');
    put_decimal(out, room, b, n)
}
