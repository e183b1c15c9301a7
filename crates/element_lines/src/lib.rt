// The line of an element of a volume: an inode by its path, an entry and an extent by their place.
#![tactic(auto)]

mod by_path;
mod entry;
mod extent;

pub use by_path::lookup_text;
pub use entry::entry_text;
pub use extent::extent_text;
