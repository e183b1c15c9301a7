// An answer with the nodes that were gone through to it.
use error::Refusal;

#[derive(Clone, Copy)]
pub struct Counted<T> {
    pub nodes: u64,
    pub answer: Result<T, Refusal>,
}
