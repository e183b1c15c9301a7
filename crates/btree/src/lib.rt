// The records of an id and a kind in a B-tree, in order (btree.rs, `scan`).
#![tactic(auto)]

mod entries;
mod leaf;
mod seek;
mod skip;

pub use entries::{Item, Keys, Order, Search};
pub use leaf::{InLeaf, in_leaf, next_in};
pub use seek::{Seek, Turn, Turned, next_child, stays};
pub use skip::{Pass, Passed, scan};
