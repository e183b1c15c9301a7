// The container (`nx_superblock_t`): its opening and its volume slots (nx.rs).
#![tactic(auto)]

mod container;
mod slots;
mod volume;

pub use container::{Container, open};
pub use slots::{slot_count, slot_of, volume_oid};
pub use volume::{VolumeSuperblock, volume_superblock};
