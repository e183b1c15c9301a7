// File reads over extents (fs.rs, `read_at`).
#![tactic(auto)]

mod copy;
mod read;

pub use read::{read_at, size_of};
