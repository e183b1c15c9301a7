// An inode's record: its fields and its extended fields (fs.rs, `Inode::parse`, `xfields`).
#![tactic(auto)]

mod fields;
mod inode;

pub use fields::{Dstream, Fields};
pub use inode::{Ids, Inode, Owner, Times, inode_at, inode_name};
