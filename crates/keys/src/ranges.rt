// Whether the characters of a name lie in the ranges that keys cover.
ghost use Rattle.std.specs.Prelude.{◌≡◌};
ghost use Rattle.unicode_forms.specs.Data.{covered};
ghost use Rattle.unicode_forms.specs.Keys.{covered_text};

use crate::characters::{Character, character_at};
use utf8::is_ascii;

fn is_covered(c: u32) -> bool
    ensures { result ≡ covered c }
{
    if c <= 0x017F {
        return true;
    }
    if c < 0x0300 {
        return false;
    }
    if c <= 0x0304 {
        return true;
    }
    if c < 0x0306 {
        return false;
    }
    if c <= 0x0308 {
        return true;
    }
    if c < 0x030A {
        return false;
    }
    if c <= 0x030C {
        return true;
    }
    if c < 0x0327 {
        return false;
    }
    if c <= 0x0328 {
        return true;
    }
    if c < 0x1100 {
        return false;
    }
    if c <= 0x11FF {
        return true;
    }
    if c < 0xAC00 {
        return false;
    }
    if c <= 0xD7A3 {
        return true;
    }
    false
}

// Whether every character of a name is covered, one after the other. An ill-formed part is U+FFFD, which is not.
pub fn each_covered(b: &[u8]) -> bool
    ensures { result ≡ covered_text b.now }
{
    let mut at = 0;
    while at < b.len() {
        if b[at] <= 127 {
            at += 1;
            continue;
        }
        match character_at(&b[at..]) {
            Character::End => return true,
            Character::At(c, n) => {
                if !is_covered(c) {
                    return false;
                }
                at += n;
            }
        }
    }
    true
}

// The same, ASCII at once.
pub fn covers(b: &[u8]) -> bool
    ensures { result ≡ covered_text b.now }
{
    if is_ascii(b) {
        return true;
    }
    each_covered(b)
}
