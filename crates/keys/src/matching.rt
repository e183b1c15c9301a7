// What the keys of a name and of a part of a path say.
ghost use Rattle.std.specs.Prelude.{◌≡◌, true};
ghost use Rattle.utf8.specs.Text.{ascii};
ghost use Rattle.unicode_forms.specs.Keys.{same_keys};
ghost use Rattle.keys.specs.Told.{keys_say, same_or};

use crate::compare::{same_key, same_on, shorter};
use crate::letters::small_letter;
use crate::ranges::each_covered;
use utf8::is_ascii;

#[derive(Clone, Copy)]
pub enum Verdict {
    Same,
    Other,
    Uncovered,
}

fn same_or(same: bool) -> Verdict
    ensures { result ≡ same_or same }
{
    if same {
        return Verdict::Same;
    }
    Verdict::Other
}

// Whether a part has the key of a name in ASCII. A letter that both have is ASCII in both, so only the first that differs is tested.
fn same_ascii(part: &[u8], name: &[u8], caseless: bool) -> bool
    requires { ascii name.now ≡ true }
    ensures { result ≡ same_keys caseless part.now name.now }
{
    let end = shorter(part, name);
    let mut at = 0;
    while at < end {
        let x = part[at];
        let y = name[at];
        if small_letter(x, caseless) != small_letter(y, caseless) {
            if 127 < x {
                return same_on(part, name, caseless, at);
            }
            return false;
        }
        at += 1;
    }
    same_on(part, name, caseless, at)
}

// Whether the keys are the same, on an insensitive volume; a name with a character that is not covered has none.
pub fn keys_say(part: &[u8], name: &[u8], caseless: bool) -> Verdict
    ensures { result ≡ keys_say caseless part.now name.now }
{
    if is_ascii(name) {
        return same_or(same_ascii(part, name, caseless));
    }
    if each_covered(name) {
        return same_or(same_key(part, name, caseless));
    }
    Verdict::Uncovered
}
