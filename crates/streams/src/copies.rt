// One byte, many times.
ghost use Rattle.std.specs.Prelude.{◌≡◌, replicate};
ghost use Rattle.text.specs.Output.{output_of, puts};

use error::Refusal;

// Copies that pass the room are refused before one is written, and past the buffer's end none is: there may be far more of them
// than any buffer holds.
pub fn put_copies(
    out: &mut [u8],
    room: usize,
    p: Result<usize, Refusal>,
    b: u8,
    n: u64,
) -> Result<usize, Refusal>
    ensures { output_of result out.new ≡ puts room (replicate n b) (output_of p out.old) }
{
    let at = p?;
    if (room.saturating_sub(at) as u64) < n {
        return Err(Refusal::BufferTooShort);
    }
    let end = at + n as usize;
    let stored = end.min(out.len());
    if at < stored {
        out[at..stored].fill(b);
    }
    Ok(end)
}
