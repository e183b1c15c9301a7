// Bookmarks: a record's place in 24 bytes, and the record that one handed in leads to. Document 02, request 10.
#![tactic(auto)]

mod handed;
mod mark;
mod on_image;
mod record_line;

pub use handed::handed_in;
pub use mark::show_mark;
pub use on_image::{mark_text, marked_text};
