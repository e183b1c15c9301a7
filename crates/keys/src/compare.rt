// Two names compared by their keys, with nothing stored: without the marks above, then without the marks below.
ghost use Rattle.std.specs.Prelude.{◌≡◌, true, ◌≤◌, ◌<◌, length, drop};
ghost use Rattle.utf8.specs.Text.{same_bytes};
ghost use Rattle.unicode_forms.specs.Keys.{same_keys};
ghost use Rattle.unicode_forms.specs.Stream.{letters_of, letters, without};
ghost use Rattle.keys.specs.Told.{Shares, same_left, Passes};
ghost use Rattle.keys.specs.declared.stream.Pending.TheVariants.{Nothing};

use crate::characters::{Character, character_at};
use crate::letters::{folded_word, small_letter};
use crate::stream::{Cursor, Pending, Step, next_but, next_letter};

// Whether two names have the same letters, each from a place on, those of a class left out.
fn same_but(a: &[u8], b: &[u8], caseless: bool, i: usize, j: usize, class: u32) -> bool
    ensures { result ≡ same_bytes (without class (letters caseless (drop i a.now))) (without class (letters caseless (drop j b.now))) }
{
    let mut p = Cursor {
        at: i,
        pending: Pending::Nothing,
    };
    let mut q = Cursor {
        at: j,
        pending: Pending::Nothing,
    };
    loop {
        match next_but(a, caseless, p, class) {
            Step::End => match next_but(b, caseless, q, class) {
                Step::End => return true,
                Step::Letter(_, _) => return false,
            },
            Step::Letter(x, after) => match next_but(b, caseless, q, class) {
                Step::End => return false,
                Step::Letter(y, then) => {
                    if x != y {
                        return false;
                    }
                    p = after;
                    q = then;
                }
            },
        }
    }
}

fn same_from(a: &[u8], b: &[u8], caseless: bool, i: usize, j: usize) -> bool
    ensures { result ≡ same_left caseless a.now b.now i j }
{
    if !same_but(a, b, caseless, i, j, 230) {
        return false;
    }
    same_but(a, b, caseless, i, j, 202)
}

// Where both names go on behind letters that they share; that their keys differ; nothing known.
#[derive(Clone, Copy)]
pub enum Passing {
    To(usize, usize),
    Apart,
    Unknown,
}

// Whether no letter is pending in either.
fn at_character(p: Cursor, q: Cursor) -> bool
    ensures { result ≡ true → (p.pending ≡ Nothing) × (q.pending ≡ Nothing) }
{
    let first = p.pending;
    let second = q.pending;
    match first {
        Pending::Nothing => match second {
            Pending::Nothing => true,
            Pending::One(_) => false,
            Pending::Two(_, _) => false,
        },
        Pending::One(_) => false,
        Pending::Two(_, _) => false,
    }
}

// From places in both, letter by letter, to the next at which no letter is pending in either.
fn pass_letters(a: &[u8], b: &[u8], caseless: bool, i: usize, j: usize) -> Passing
    ensures { Passes caseless a.now b.now i j result }
{
    let mut p = Cursor {
        at: i,
        pending: Pending::Nothing,
    };
    let mut q = Cursor {
        at: j,
        pending: Pending::Nothing,
    };
    loop {
        match next_letter(a, caseless, p) {
            Step::End => return Passing::Unknown,
            Step::Letter(x, after) => match next_letter(b, caseless, q) {
                Step::End => return Passing::Unknown,
                Step::Letter(y, then) => {
                    if x != y {
                        return Passing::Unknown;
                    }
                    if at_character(after, then) {
                        return Passing::To(after.at, then.at);
                    }
                    p = after;
                    q = then;
                }
            },
        }
    }
}

// Whether two characters are known to have the same letters: they are the same, or one in the table where case does not count.
fn alike(c: u32, d: u32, caseless: bool) -> bool
    ensures { result ≡ true → letters_of caseless c ≡ letters_of caseless d }
{
    if c == d {
        return true;
    }
    if !caseless {
        return false;
    }
    if c < 0xC0 {
        return false;
    }
    if 0x17F < c {
        return false;
    }
    if d < 0xC0 {
        return false;
    }
    if 0x17F < d {
        return false;
    }
    folded_word(c - 0xC0) == folded_word(d - 0xC0)
}

// How many bytes a character takes at the head of both texts that has the same letters in both; 0 where none is known.
fn shared(a: &[u8], b: &[u8], caseless: bool) -> usize
    ensures { Shares caseless a.now b.now result }
{
    match character_at(a) {
        Character::End => 0,
        Character::At(c, n) => match character_at(b) {
            Character::End => 0,
            Character::At(d, m) => {
                if n != m {
                    return 0;
                }
                if !alike(c, d, caseless) {
                    return 0;
                }
                n
            }
        },
    }
}

// A character that stands in both as it is, or letters. Where the first bytes differ the characters do.
fn pass_wide(a: &[u8], b: &[u8], caseless: bool, i: usize, j: usize) -> Passing
    requires { (i < length a.now) × (j < length b.now) }
    ensures { Passes caseless a.now b.now i j result }
{
    if a[i] != b[j] {
        return pass_letters(a, b, caseless, i, j);
    }
    let n = shared(&a[i..], &b[j..], caseless);
    if n == 0 {
        return pass_letters(a, b, caseless, i, j);
    }
    Passing::To(i + n, j + n)
}

// One ASCII character of both, which tells them apart where it differs, or letters.
fn pass(a: &[u8], b: &[u8], caseless: bool, i: usize, j: usize) -> Passing
    ensures { Passes caseless a.now b.now i j result }
{
    if a.len() <= i {
        return Passing::Unknown;
    }
    if b.len() <= j {
        return Passing::Unknown;
    }
    let x = a[i];
    let y = b[j];
    if 127 < x {
        return pass_wide(a, b, caseless, i, j);
    }
    if small_letter(x, caseless) == small_letter(y, caseless) {
        return Passing::To(i + 1, j + 1);
    }
    if 127 < y {
        return pass_letters(a, b, caseless, i, j);
    }
    Passing::Apart
}

// Both from one place on: what they share of it is passed, in whatever form.
pub fn same_on(a: &[u8], b: &[u8], caseless: bool, at: usize) -> bool
    ensures { result ≡ same_left caseless a.now b.now at at }
{
    let mut i = at;
    let mut j = at;
    loop {
        match pass(a, b, caseless, i, j) {
            Passing::Unknown => return same_from(a, b, caseless, i, j),
            Passing::Apart => return false,
            Passing::To(k, l) => {
                i = k;
                j = l;
            }
        }
    }
}

pub fn shorter(a: &[u8], b: &[u8]) -> usize
    ensures { (result ≤ length a.now) × (result ≤ length b.now) }
{
    if a.len() < b.len() {
        return a.len();
    }
    b.len()
}

// Whether two names have the same key on an insensitive volume. What both begin with is passed first, ASCII byte by byte.
pub fn same_key(a: &[u8], b: &[u8], caseless: bool) -> bool
    ensures { result ≡ same_keys caseless a.now b.now }
{
    let end = shorter(a, b);
    let mut at = 0;
    while at < end {
        let x = a[at];
        let y = b[at];
        if 127 < x {
            let n = shared(&a[at..], &b[at..], caseless);
            if n == 0 {
                return same_on(a, b, caseless, at);
            }
            at += n;
            continue;
        }
        if small_letter(x, caseless) != small_letter(y, caseless) {
            if 127 < y {
                return same_on(a, b, caseless, at);
            }
            return false;
        }
        at += 1;
    }
    same_on(a, b, caseless, at)
}
