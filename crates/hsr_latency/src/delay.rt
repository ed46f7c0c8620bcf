//! How long a send took.
use hsr_node::Probe;

/// A send, by its node and place, and the time from its effective moment to that of an arrival of it, in microseconds; 0 where the
/// arrival's is earlier.
#[derive(Clone, Copy, PartialEq, Eq)]
pub struct Delay {
    pub send: Probe,
    pub time: u64,
}

/// Which arrivals at a node are looked at.
#[derive(Clone, Copy, PartialEq, Eq)]
pub enum Arrivals {
    /// Those that went up.
    Up,
    /// Those of a send of which another copy went up.
    Second,
}
