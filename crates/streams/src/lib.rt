// The bytes of an attribute's data stream (fs.rs, `copy_dstream`): what is refused first, then the bytes, an extent after the other.
#![tactic(auto)]

mod copies;
mod pour;
mod settle;
mod step;

pub use copies::put_copies;
pub use pour::{begins, put_stream_from, put_stream_hex};
pub use settle::settle_stream;
pub use step::{less, next_pos, wanted};
