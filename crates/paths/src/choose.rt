// The entry of a directory that a part of a path names, chosen entry after entry.
ghost use Rattle.std.specs.Prelude.{◌≡◌};
ghost use Rattle.utf8.specs.Text.{lossy};
ghost use Rattle.paths.specs.Inner.{none_yet, unless_exact, by_key, weighed, settled};

use crate::compare::{is_wide, same_key};
use error::Refusal;
use records::Entry;
use utf8::reads_as;
use volume::{NameRule, insensitive};

// What is known before the next entry: nothing, the entry of exactly that name, or what the keys say, should no later
// name be exactly equal.
#[derive(Clone, Copy)]
pub enum Choice {
    Open,
    Exact(Entry),
    Keyed(Entry),
    No(Refusal),
}

// The part's own test comes first, and a sensitive volume has no keys to compare.
#[tactic(auto, unfolding(crate::specs::Inner::none_yet))]
pub fn none_yet(rule: NameRule, part: &[u8]) -> Choice
    ensures { result ≡ none_yet rule part.now }
{
    if !insensitive(rule) {
        return Choice::No(Refusal::NotFound);
    }
    if !is_wide(part) {
        return Choice::Open;
    }
    Choice::No(Refusal::CharacterNotCovered)
}

#[tactic(auto, unfolding(crate::specs::Inner::unless_exact))]
fn unless_exact(name: &[u8], part: &[u8], e: Entry, other: Choice) -> Choice
    ensures { result ≡ unless_exact (lossy name.now) part.now e other }
{
    if reads_as(name, part) {
        return Choice::Exact(e);
    }
    other
}

#[tactic(auto, using(crate::proofs::Chosen::key_wide, crate::proofs::Chosen::key_ascii))]
fn by_key(rule: NameRule, name: &[u8], part: &[u8], e: Entry) -> Choice
    ensures { result ≡ by_key rule (lossy name.now) part.now e }
{
    if is_wide(name) {
        return Choice::No(Refusal::CharacterNotCovered);
    }
    if same_key(rule, part, name) {
        return Choice::Keyed(e);
    }
    Choice::Open
}

// What is known after an entry.
#[tactic(auto, unfolding(crate::specs::Inner::weighed))]
pub fn weigh(rule: NameRule, choice: Choice, name: &[u8], part: &[u8], e: Entry) -> Choice
    ensures { result ≡ weighed rule (lossy name.now) part.now e choice }
{
    match choice {
        Choice::Open => unless_exact(name, part, e, by_key(rule, name, part, e)),
        Choice::Exact(_) => choice,
        Choice::Keyed(_) | Choice::No(_) => unless_exact(name, part, e, choice),
    }
}

// What is known after the last entry.
pub fn settle(choice: Choice) -> Result<Entry, Refusal>
    ensures { result ≡ settled choice }
{
    match choice {
        Choice::Open => Err(Refusal::NotFound),
        Choice::Exact(e) | Choice::Keyed(e) => Ok(e),
        Choice::No(e) => Err(e),
    }
}
