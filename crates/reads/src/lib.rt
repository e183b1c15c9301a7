// The bytes of a file and of an attribute, and the text of a symbolic link, into a buffer that the caller lends.
#![tactic(auto)]

mod attribute;
mod file;
mod link;

pub use attribute::xattr_bytes;
pub use file::read_text;
pub use link::link_text;
