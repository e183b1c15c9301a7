// Looking a path up in a volume (fs.rs, `lookup_path` and `NameRule`).
#![tactic(auto)]

mod choose;
mod compare;
mod split;
mod walk;

pub use walk::lookup_path;
