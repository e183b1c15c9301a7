// Names as the parts of a record that hold them, and how many parts of each its reading replaces: document 02, request 02.
#![tactic(auto)]

ghost use Rattle.std.specs.Prelude.{◌≡◌};
ghost use Rattle.names.specs.Name.{name_from, name_of, name_bytes};

use byte_fields::{Span, cstr, part};
use utf8::replaced_parts;

#[derive(Clone, Copy)]
pub struct Name {
    pub span: Span,
    pub replaced: u64,
}

fn named(start: usize, len: usize, replaced: usize) -> Name
    ensures { result ≡ record { span = record { start = start; len = len }; replaced = replaced } }
{
    Name {
        span: Span {
            start: start,
            len: len,
        },
        replaced: replaced as u64,
    }
}

#[tactic(auto, using(crate::proofs::Laws::name_slow))]
fn read_whole(b: &[u8], start: usize) -> Name
    ensures { result ≡ name_from start b.now }
{
    let c = cstr(b);
    named(start, c.len(), replaced_parts(c))
}

// The name that b begins with. Most are ASCII: their end is found in one pass, up to the first byte that ends the name or may be replaced.
fn name_from(b: &[u8], start: usize) -> Name
    ensures { result ≡ name_from start b.now }
{
    match b.iter().position(|x| *x == 0 || 0x7F < *x) {
        None => named(start, b.len(), 0),
        Some(n) => {
            if b[n] == 0 {
                return named(start, n, 0);
            }
            read_whole(b, start)
        }
    }
}

// The name that a part of b holds.
#[tactic(auto, using(crate::proofs::Laws::name_within))]
pub fn name_of(b: &[u8], s: Span) -> Name
    ensures { result ≡ name_of b.now s }
{
    name_from(part(b, s), s.start)
}

// Its bytes.
#[tactic(auto, unfolding(crate::specs::Name::name_bytes))]
pub fn name_bytes(b: &[u8], n: Name) -> &[u8]
    ensures { result.now ≡ name_bytes b.now n }
{
    part(b, n.span)
}
