// The lossy reading of bytes that come one after the other, written into a buffer that the caller lends, or the parts of it that are replaced.
#![tactic(auto)]

mod feed;
mod pieces;
mod window;

pub use feed::{Feed, begin, finish, push, push_all, push_zeros};
pub use window::Window;
