// Attributes by name, their bytes, and the text of symbolic links (fs.rs, `xattr`, `read_xattr`, `read_link`).
#![tactic(auto)]

mod link;
mod marks;
mod named;
mod pour;
mod raw;
mod target;

pub use link::{read_link, read_xattr};
pub use marks::link_replaced;
pub use named::attribute_named;
