// A call at a desk, and the nodes that it goes through: document 02, request 06.
#![tactic(auto)]

mod by_number;
mod counts;
mod rows;

pub use by_number::call;
pub use counts::{Called, DeskCounts, more_by, result_in};
