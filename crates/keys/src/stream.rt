// A name's letters one after the other.
ghost use Rattle.std.specs.Prelude.{◌≡◌, Bool, List, ◌++◌, ℕ, drop};
ghost use Rattle.unicode_forms.specs.Stream.{letters, without};
ghost use Rattle.keys.specs.Told.{expansion_of, left_of, step_told, but_told};

use crate::characters::{Character, character_at};
use crate::letters::{Expansion, letters_of, small_letter};
use unicode_forms::class_of;

// Letters of a character that are still to come.
#[derive(Clone, Copy)]
pub enum Pending {
    Nothing,
    One(u32),
    Two(u32, u32),
}

// Where the next character begins, and what is still to come before it.
#[derive(Clone, Copy)]
pub struct Cursor {
    pub at: usize,
    pub pending: Pending,
}

#[derive(Clone, Copy)]
pub enum Step {
    End,
    Letter(u32, Cursor),
}

// The first letter of some, before the characters from a place on.
fn opened(e: Expansion, at: usize) -> Step
    ensures { (caseless : Bool) (b : List ℕ) → step_told caseless b result ≡ expansion_of e ++ letters caseless (drop at b) }
{
    match e {
        Expansion::One(x) => Step::Letter(
            x,
            Cursor {
                at: at,
                pending: Pending::Nothing,
            },
        ),
        Expansion::Two(x, y) => Step::Letter(
            x,
            Cursor {
                at: at,
                pending: Pending::One(y),
            },
        ),
        Expansion::Three(x, y, z) => Step::Letter(
            x,
            Cursor {
                at: at,
                pending: Pending::Two(y, z),
            },
        ),
    }
}

fn first_letter(b: &[u8], caseless: bool, at: usize) -> Step
    ensures { step_told caseless b.now result ≡ letters caseless (drop at b.now) }
{
    if b.len() <= at {
        return Step::End;
    }
    let x = b[at];
    if x <= 127 {
        return Step::Letter(
            small_letter(x, caseless) as u32,
            Cursor {
                at: at + 1,
                pending: Pending::Nothing,
            },
        );
    }
    match character_at(&b[at..]) {
        Character::End => Step::End,
        Character::At(c, n) => opened(letters_of(c, caseless), at + n),
    }
}

pub fn next_letter(b: &[u8], caseless: bool, c: Cursor) -> Step
    ensures { step_told caseless b.now result ≡ left_of caseless b.now c }
{
    let pending = c.pending;
    match pending {
        Pending::Nothing => first_letter(b, caseless, c.at),
        Pending::One(x) => Step::Letter(
            x,
            Cursor {
                at: c.at,
                pending: Pending::Nothing,
            },
        ),
        Pending::Two(x, y) => Step::Letter(
            x,
            Cursor {
                at: c.at,
                pending: Pending::One(y),
            },
        ),
    }
}

// The next letter that is not of a class.
pub fn next_but(b: &[u8], caseless: bool, c: Cursor, class: u32) -> Step
    ensures { but_told class caseless b.now result ≡ without class (left_of caseless b.now c) }
{
    let mut cursor = c;
    loop {
        match next_letter(b, caseless, cursor) {
            Step::End => return Step::End,
            Step::Letter(x, after) => {
                if class_of(x) != class {
                    return Step::Letter(x, after);
                }
                cursor = after;
            }
        }
    }
}
