// The part of an image that a container is in, by a GUID partition table (UEFI specification, 5.3).
#![tactic(auto)]

mod crc32;
mod entries;
mod header;
mod image;
mod small;

pub use header::Table;
pub use image::part_of_image;
