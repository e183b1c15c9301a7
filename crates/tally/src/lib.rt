// What a node's form and all below it count for, and how deep they go, with no text: document 02, request 09.
#![tactic(auto)]

mod counts;
mod own;
mod tree;

pub use counts::Tally;
pub use tree::tally_node;
