// The parts of a path.
ghost use Rattle.std.specs.Prelude.{◌≡◌, ◌+◌, ◌≤◌, length, drop};
ghost use Rattle.paths.specs.Parts.{is_separator};
ghost use Rattle.paths.specs.Inner.{leading, next_part};

use byte_fields::Span;

// Paths split on / and on \.
#[tactic(auto, unfolding(crate::specs::Parts::is_separator, error::specs::Answer::if_eq))]
fn is_separator(b: u8) -> bool
    ensures { result ≡ is_separator b }
{
    b == b'/' || b == b'\\'
}

// Where the separators that stand at `at` end, or the bytes that are none.
#[tactic(auto, using(crate::proofs::Parts::past_done, crate::proofs::Parts::past_goes))]
fn past(path: &[u8], at: usize, separators: bool) -> usize
    ensures { result ≡ at + leading separators (drop at path.now) }
{
    for i in at..path.len() {
        if is_separator(path[i]) != separators {
            return i;
        }
    }
    at.max(path.len())
}

// The next part from `at` on, empty where there is none.
#[tactic(auto, using(crate::proofs::Parts::next_is))]
pub fn next_part(path: &[u8], at: usize) -> Span
    ensures { result ≡ next_part path.now at }
{
    let start = past(path, at, true);
    let end = past(path, start, false);
    Span {
        start,
        len: end - start,
    }
}

// The part after one.
pub fn part_after(path: &[u8], p: Span) -> Span
    requires { p.start + p.len ≤ length path.now }
    ensures { result ≡ next_part path.now (p.start + p.len) }
{
    next_part(path, p.start + p.len)
}
