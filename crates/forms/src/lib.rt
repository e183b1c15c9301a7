// A node's form up to its entries: its line, its attributes and its data.
#![tactic(auto)]

mod attributes;
mod contents_line;
mod head;
mod reading;

pub use attributes::put_streamed;
pub use head::put_head;
pub use reading::{read, refuse};
