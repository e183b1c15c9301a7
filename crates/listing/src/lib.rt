// The listing of a volume: document 01, "The listing (added)".
#![tactic(auto)]

mod list;

pub use list::{list_text, put_body, put_foot, refuse_zeroed};
