// How long the listing of a volume will be, and how deep: document 02, request 09.
#![tactic(auto)]

mod gauge;
mod line;

pub use gauge::Measured;
pub use line::measure_text;
