// The checkpoints of a container: which superblock of the descriptor area is taken (nx.rs).
#![tactic(auto)]

mod accepted;
mod by_number;
mod checkpoint;
mod maps;
mod superblock;

pub use accepted::accepted_block;
pub use by_number::{Choice, checkpoint_by};
pub use checkpoint::checkpoint_of;
pub use superblock::{Descriptors, Superblock};
