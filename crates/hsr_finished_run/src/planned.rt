//! What a run was meant to do.
use hsr_node::Event;

/// What the main worker brought about: a send, a supervision or an age of a node, at a moment in microseconds, as it was
/// given.
#[derive(Clone, Drop, PartialEq, Eq)]
pub struct Planned {
    pub node: usize,
    pub at: u64,
    pub event: Event,
}
