// The records of a scan one after the other, leaf by leaf: what is left of the levels above a leaf is held by the blocks of its path.
#![tactic(auto)]

mod path;
mod steps;
mod walk;
mod way;

pub use path::{Mark, Path};
pub use steps::{Reached, Step, first, in_leaf, next};
pub use walk::{InPart, PartStep};
pub use way::{Way, begin, resume, way_down};
