// One wrong word: which single words of an object that fails its checksum could be wrong, and what would stand in their
// place. Document 02, request 13.
#![tactic(auto)]

ghost use Rattle.std.specs.Prelude.{◌≡◌, false, ◌+◌, ◌-◌, ◌*◌, ◌/◌, ◌%◌, ◌^◌, ◌≤◌, ◌<◌, eqb, length};
ghost use Rattle.byte_fields.specs.Number.{little};
ghost use Rattle.checksum.specs.Fletcher.{M, valid};
ghost use Rattle.text.specs.Output.{output_of, puts};
ghost use Rattle.calls.specs.Filled.{filled, filled_at};
ghost use Rattle.byte_fields.specs.Number.{little_bytes};
ghost use Rattle.wrong_word.specs.Mends.{mend, mends_of, mends_in, listed, entry};
ghost use Rattle.wrong_word.specs.Inner.{words_of_residue, Within, gaps_with, Found, solved_at, solved_from, solved};

use byte_fields::four;
use checksum::{Sums, fletcher64, verify};
use error::Refusal;
use text::put_byte;

const M: u64 = 4294967295;

// By how much a word has to grow, and what both sums and the first stored half come to before it does.
#[derive(Clone, Copy)]
struct Gap {
    by: u64,
    rest: u64,
}

// From both sums and both stored halves. No checksum has a half of 0.
#[tactic(auto, unfolding(crate::specs::Inner::gaps_with, error::specs::Answer::if_eq))]
fn gap_with(s: Sums, low: u64, high: u64) -> Option<Gap>
    requires { (s.s1 < M) × (s.s2 < M) × (low ≤ M) × (high ≤ M) }
    ensures { result ≡ gaps_with s low high }
{
    if low == 0 || high == 0 {
        return None;
    }
    Some(Gap {
        by: M - (s.s1 + low + high) % M,
        rest: (s.s1 + s.s2 + low) % M,
    })
}

fn word(object: &[u8], at: usize) -> u64
    requires { at + 4 ≤ length object.now }
    ensures { (result ≡ little 4 object.now at) × (result ≤ M) }
{
    four(object, at) as u64
}

#[tactic(auto, using(crate::proofs::Laws::summed_first, crate::proofs::Laws::summed_second, crate::proofs::Laws::found_in_lem))]
fn gap_in(object: &[u8]) -> Option<Gap>
    requires { (32 ≤ length object.now) × (length object.now % 4 ≡ 0) × (valid object.now ≡ false) }
    ensures { Found object.now result }
{
    let low = word(object, 0);
    let high = word(object, 4);
    let s = fletcher64(object);
    gap_with(s, low, high)
}

// A sound object and one whose length is invalid have no wrong word.
#[tactic(auto, using(crate::proofs::Solved::found_sound, crate::proofs::Solved::found_short, crate::proofs::Solved::found_uneven, crate::proofs::Laws::fails_so))]
fn gap_of(object: &[u8]) -> Option<Gap>
    ensures { Found object.now result }
{
    if verify(object) {
        return None;
    }
    if object.len() < 32 || object.len() % 4 != 0 {
        return None;
    }
    gap_in(object)
}

// Whether a word that has `left` words from it on, itself counted, would close the second sum too.
#[tactic(auto, using(crate::proofs::Laws::weight_fits, crate::proofs::Laws::total_fits, crate::proofs::Laws::weight_reduced))]
fn closes(g: Gap, left: u64) -> bool
    requires { Within g × (left < 2 ^ 63) }
    ensures { result ≡ eqb ((g.rest + (left + 1) * g.by) % M) 0 }
{
    let weight = (left + 1) % M;
    (g.rest + weight * g.by) % M == 0
}

// The n lowest bytes of a number, the lowest first.
#[tactic(auto, using(crate::proofs::Laws::little_start))]
fn put_number(
    out: &mut [u8],
    room: usize,
    p: Result<usize, Refusal>,
    n: u32,
    x: u64,
) -> Result<usize, Refusal>
    ensures { output_of result out.new ≡ puts room (little_bytes n x) (output_of p out.old) }
{
    let mut q = p;
    let mut rest = x;
    for _ in 0..n {
        q = put_byte(out, room, q, (rest % 256) as u8);
        rest /= 256;
    }
    q
}

#[tactic(auto, using(crate::proofs::Laws::then_word))]
fn put_mend(
    out: &mut [u8],
    room: usize,
    p: Result<usize, Refusal>,
    place: u64,
    word: u64,
) -> Result<usize, Refusal>
    ensures { output_of result out.new ≡ puts room (entry (mend place word)) (output_of p out.old) }
{
    let a = put_number(out, room, p, 8, place);
    put_number(out, room, a, 4, word)
}

// The words 0 and 0xFFFFFFFF are two, and have one residue.
#[tactic(auto, using(crate::proofs::Laws::two_words, crate::proofs::Laws::one_word))]
fn put_words(
    out: &mut [u8],
    room: usize,
    p: Result<usize, Refusal>,
    place: u64,
    residue: u64,
) -> Result<usize, Refusal>
    ensures { output_of result out.new ≡ puts room (listed (words_of_residue place residue)) (output_of p out.old) }
{
    if residue == 0 {
        let a = put_mend(out, room, p, place, 0);
        return put_mend(out, room, a, place, 4294967295);
    }
    put_mend(out, room, p, place, residue)
}

// What is listed at a place that has `left` words from it on.
#[tactic(auto, using(crate::proofs::Laws::place_listed, crate::proofs::Laws::place_passed))]
fn put_at(
    out: &mut [u8],
    room: usize,
    p: Result<usize, Refusal>,
    g: Gap,
    object: &[u8],
    left: usize,
    at: usize,
) -> Result<usize, Refusal>
    requires { Within g × (left < 2 ^ 63) × (at + 4 ≤ length object.now) }
    ensures { output_of result out.new ≡ puts room (listed (solved_at g object.now left at)) (output_of p out.old) }
{
    if closes(g, left as u64) {
        let w = word(object, at);
        return put_words(out, room, p, at as u64, (w + g.by) % M);
    }
    p
}

#[tactic(auto, using(crate::proofs::Laws::places_start))]
fn put_all_places(
    out: &mut [u8],
    room: usize,
    p: Result<usize, Refusal>,
    g: Gap,
    object: &[u8],
) -> Result<usize, Refusal>
    requires { Within g × (8 ≤ length object.now) }
    ensures { output_of result out.new ≡ puts room (listed (solved_from g object.now ((length object.now - 8) / 4) 8)) (output_of p out.old) }
{
    let mut q = p;
    let n = (object.len() - 8) / 4;
    for i in 0..n {
        q = put_at(out, room, q, g, object, n - i, 8 + 4 * i);
    }
    q
}

// Measured first: a buffer that is too short is left as it was.
#[tactic(auto, using(calls::proofs::Filling::filled_short, calls::proofs::Filling::filled_written))]
fn show(g: Gap, object: &[u8], out: &mut [u8]) -> Result<usize, Refusal>
    requires { Within g × (8 ≤ length object.now) }
    ensures { filled_at result out.new ≡ filled (listed (solved_from g object.now ((length object.now - 8) / 4) 8)) out.old }
{
    let room = out.len();
    put_all_places(&mut out[..0], room, Ok(0), g, object)?;
    put_all_places(out, room, Ok(0), g, object)
}

// The bytes of the list.
#[tactic(auto, using(crate::proofs::Laws::none_filled, crate::proofs::Laws::some_filled, crate::proofs::Laws::found_within, crate::proofs::Laws::found_long))]
fn put_list(object: &[u8], out: &mut [u8]) -> Result<usize, Refusal>
    ensures { filled_at result out.new ≡ filled (listed (mends_of object.now)) out.old }
{
    match gap_of(object) {
        None => Ok(0),
        Some(g) => show(g, object, out),
    }
}

// The list of an object, 12 bytes an entry; how many there are.
pub fn wrong_words(object: &[u8], out: &mut [u8]) -> Result<usize, Refusal>
    ensures { filled_at result out.new ≡ mends_in (mends_of object.now) out.old }
{
    let n = put_list(object, out)?;
    Ok(n / 12)
}
