// The leaves, exported for the host's comparison with the Rust. Each answers a number.
#![tactic(auto)]

mod answers;
mod fields;
mod names;
mod objects;
mod texts;

pub use fields::{leaf_cstr, leaf_number, leaf_number_refused, leaf_slice_refused};
pub use names::{leaf_hash, leaf_len_and_hash};
pub use objects::{leaf_compute, leaf_header, leaf_header_refused, leaf_read_at, leaf_verify};
pub use texts::{leaf_is_utf8, leaf_piece, leaf_reads_as, leaf_replaced};
