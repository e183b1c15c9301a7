// Names compared by their keys (fs.rs, `NameRule::key`).
ghost use Rattle.std.specs.Prelude.{◌≡◌};
ghost use Rattle.paths.specs.Names.{wide, folded, same_keys};

use name_hash::lower_case;
use utf8::is_ascii;
use volume::NameRule;

// Whether a name has a character above U+007F.
#[tactic(auto, using(crate::proofs::Keys::wide_ascii))]
pub fn is_wide(b: &[u8]) -> bool
    ensures { result ≡ wide b.now }
{
    !is_ascii(b)
}

#[tactic(auto, unfolding(crate::specs::Names::folded))]
fn fold(x: u8, case_insensitive: bool) -> u8
    ensures { result ≡ folded case_insensitive x }
{
    if case_insensitive {
        return lower_case(x);
    }
    x
}

// Whether two ASCII names have the same key.
#[tactic(auto, using(crate::proofs::Keys::key_lengths, crate::proofs::Keys::key_goes))]
pub fn same_key(rule: NameRule, a: &[u8], b: &[u8]) -> bool
    ensures { result ≡ same_keys rule.case_insensitive rule.normalization_insensitive a.now b.now }
{
    if a.len() != b.len() {
        return false;
    }
    for i in 0..a.len() {
        if fold(a[i], rule.case_insensitive) != fold(b[i], rule.case_insensitive) {
            return false;
        }
    }
    true
}
