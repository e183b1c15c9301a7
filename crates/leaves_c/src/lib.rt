// The leaves, exported for the host's comparison with the Rust: each promises what the function of `leaves` of the same name does,
// and calls it.
#![tactic(auto)]

mod fields;
mod names;
mod objects;
mod texts;
