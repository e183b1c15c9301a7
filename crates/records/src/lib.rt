// The records of a volume's tree beside inodes: directory entries, attributes and file extents (fs.rs).
#![tactic(auto)]

mod attribute;
mod directory;
mod extent;

pub use attribute::{
    Attribute, AttributeData, StreamData, attribute_bytes, attribute_name, attribute_of,
};
pub use directory::{Entry, entry_name, entry_of, entry_replaced};
pub use extent::{Extent, extent_of};
