// The lines of a volume, a directory entry, an extent and a listing's totals.
ghost use Rattle.std.specs.Prelude.{◌≡◌, [], ◌∷◌};
ghost use Rattle.utf8.specs.Text.{lossy};
ghost use Rattle.text.specs.Output.{output_of, puts};
ghost use Rattle.text.specs.Words.{digits, words};
ghost use Rattle.lines.specs.Shown.{entry_shown};
ghost use Rattle.lines.specs.Lines.{bit, volume_line, entry_line, extent_line, total_line};

use crate::word::{put_name, put_number, put_three};
use error::Refusal;
use obj::Reader;
use records::{Entry, Extent, entry_name};
use text::{put_all, put_byte};

fn bit_of(b: bool) -> u64
    ensures { result ≡ bit b }
{
    if b {
        return 1;
    }
    0
}

fn put_rule(
    out: &mut [u8],
    room: usize,
    p: Result<usize, Refusal>,
    case_insensitive: bool,
    normalization_insensitive: bool,
) -> Result<usize, Refusal>
    ensures { output_of result out.new ≡ puts room (words (digits (bit case_insensitive) ∷ digits (bit normalization_insensitive) ∷ []) []) (output_of p out.old) }
{
    let q = put_number(out, room, p, bit_of(case_insensitive));
    put_number(out, room, q, bit_of(normalization_insensitive))
}

// Whether case and normalization are insensitive, and the label's stored bytes.
pub fn put_volume_line(
    out: &mut [u8],
    room: usize,
    p: Result<usize, Refusal>,
    case_insensitive: bool,
    normalization_insensitive: bool,
    label: &[u8],
) -> Result<usize, Refusal>
    ensures { output_of result out.new ≡ puts room (volume_line case_insensitive normalization_insensitive (lossy label.now) []) (output_of p out.old) }
{
    let a = put_all(out, room, p, b"(volume");
    let b = put_rule(out, room, a, case_insensitive, normalization_insensitive);
    let c = put_name(out, room, b, label);
    put_byte(out, room, c, b'\n')
}

pub fn put_entry_line(
    out: &mut [u8],
    room: usize,
    p: Result<usize, Refusal>,
    image: &[u8],
    reader: Reader,
    e: Entry,
) -> Result<usize, Refusal>
    ensures { output_of result out.new ≡ puts room (entry_line (entry_shown reader image.now e) []) (output_of p out.old) }
{
    let a = put_all(out, room, p, b"(entry");
    let b = put_three(out, room, a, e.file_id, e.date_added, e.kind as u64);
    let c = put_name(out, room, b, entry_name(reader, image, e));
    put_byte(out, room, c, b'\n')
}

pub fn put_extent_line(
    out: &mut [u8],
    room: usize,
    p: Result<usize, Refusal>,
    e: Extent,
) -> Result<usize, Refusal>
    ensures { output_of result out.new ≡ puts room (extent_line e []) (output_of p out.old) }
{
    let a = put_all(out, room, p, b"(extent");
    let b = put_three(out, room, a, e.logical, e.len, e.phys_block);
    put_all(out, room, b, b")\n")
}

pub fn put_total_line(
    out: &mut [u8],
    room: usize,
    p: Result<usize, Refusal>,
    nodes: u64,
    bytes: u64,
    attrs: u64,
) -> Result<usize, Refusal>
    ensures { output_of result out.new ≡ puts room (total_line nodes bytes attrs []) (output_of p out.old) }
{
    let a = put_all(out, room, p, b"(total");
    let b = put_three(out, room, a, nodes, bytes, attrs);
    put_all(out, room, b, b")\n")
}
