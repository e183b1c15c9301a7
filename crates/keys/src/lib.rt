// Names compared by their keys, and the letters that a key is made of: canonical decomposition, order and lower case, for the ranges of request 07.
#![tactic(auto)]

mod characters;
mod compare;
mod letters;
mod matching;
mod ranges;
mod stream;

pub use compare::same_key;
pub use matching::{Verdict, keys_say};
pub use ranges::covers;
pub use stream::{Cursor, Pending, Step, next_letter};
