// The lists of a volume, an element a call, and its inodes (fs.rs).
#![tactic(auto)]

mod attributes;
mod entries;
mod extents;
mod inodes;
mod seen;
mod tree;
mod ways;

pub use attributes::{attribute_at, attribute_from};
pub use entries::{entry_at, entry_from};
pub use extents::{extent_at, file_extents};
pub use inodes::{ROOT, inode, root};
pub use seen::{Seen, attribute_in, entry_in, extent_in};
pub use tree::{fewer, search};
pub use ways::{inode_on, inode_way, list_on};
