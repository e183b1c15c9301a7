// The characters of a text.
ghost use Rattle.std.specs.Prelude.{◌≡◌, ◌≤◌, true, length, take, get_or};
ghost use Rattle.utf8.specs.Characters.{scalar_of};
ghost use Rattle.keys.specs.Told.{character_of};

use utf8::{Piece, next};

// A character, U+FFFD for an ill-formed part, and how many bytes it takes.
#[derive(Clone, Copy)]
pub enum Character {
    End,
    At(u32, usize),
}

fn wide(x: u8) -> u32
    ensures { result ≡ x }
{
    x as u32
}

// The number of a sequence of n bytes.
fn scalar(b: &[u8], n: usize) -> u32
    requires { n ≤ length b.now }
    ensures { result ≡ scalar_of (take n b.now) }
{
    if n == 0 {
        return 0;
    }
    if n == 1 {
        return wide(b[0]);
    }
    let y = (b[1] % 64) as u32;
    if n == 2 {
        return (b[0] % 32) as u32 * 64 + y;
    }
    let z = (b[2] % 64) as u32;
    if n == 3 {
        return (b[0] % 16) as u32 * 4096 + y * 64 + z;
    }
    (b[0] % 8) as u32 * 262144 + y * 4096 + z * 64 + (b[3] % 64) as u32
}

fn by_piece(b: &[u8]) -> Character
    ensures { result ≡ character_of b.now }
{
    match next(b) {
        Piece::End => Character::End,
        Piece::WellFormed(n) => Character::At(scalar(b, n), n),
        Piece::IllFormed(n) => Character::At(0xFFFD, n),
    }
}

fn is_tail(x: u8) -> bool
    ensures { result ≡ true → (0x80 ≤ x) × (x ≤ 0xBF) }
{
    if x < 0x80 {
        return false;
    }
    x <= 0xBF
}

// Hangul's letters and most of its syllables have three bytes of a row whose second byte may be any tail.
fn of_three(b: &[u8]) -> Character
    requires { (0xE1 ≤ get_or b.now 0 0) × (get_or b.now 0 0 ≤ 0xEC) }
    ensures { result ≡ character_of b.now }
{
    if b.len() < 3 {
        return by_piece(b);
    }
    if !is_tail(b[1]) {
        return by_piece(b);
    }
    if !is_tail(b[2]) {
        return by_piece(b);
    }
    Character::At(scalar(b, 3), 3)
}

// The rows of the characters that are covered come first, so that most are not looked for in the table.
pub fn character_at(b: &[u8]) -> Character
    ensures { result ≡ character_of b.now }
{
    if b.len() < 2 {
        return by_piece(b);
    }
    let x = b[0];
    if x < 0xC2 {
        return by_piece(b);
    }
    if x <= 0xDF {
        if is_tail(b[1]) {
            return Character::At(scalar(b, 2), 2);
        }
        return by_piece(b);
    }
    if x < 0xE1 {
        return by_piece(b);
    }
    if 0xEC < x {
        return by_piece(b);
    }
    of_three(b)
}
