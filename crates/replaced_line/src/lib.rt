// The line that says how many parts of a name were replaced: document 02, request 02.
#![tactic(auto)]

mod kinds;
mod line;
mod on_volume;

pub use on_volume::replaced_text;
