// The lines of a listing, each written into a buffer that the caller lends (see text).
#![tactic(auto)]

mod attribute;
mod inode;
mod line;
mod word;

pub use attribute::{put_attribute_embedded, put_attribute_head};
pub use inode::put_node_line;
pub use line::{put_entry_line, put_extent_line, put_total_line, put_volume_line};
