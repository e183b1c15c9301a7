// A file's extents: which of them may be read (fs.rs, `extents` and `read_extents_at`).
#![tactic(auto)]

mod deciding;
mod verdict;

pub use deciding::{Judged, judge, judge_from};
pub use verdict::{block_size, blocks_in, counted_at, larger, lies_at, smaller};
