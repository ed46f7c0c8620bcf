//! An entry's place, its own moment, and what it follows.

/// Where an entry stands: the number of its node, and its place in that node's record, both from 0.
#[derive(Clone, Copy, PartialEq, Eq)]
pub struct Spot {
    pub node: usize,
    pub place: usize,
}

/// What is known of when an entry took place: its moment in microseconds, as it was given; the main worker's entry before it, if
/// it is the main worker's; and the entry that passed the copy with which it came, if one did. It also follows the entry before
/// it in its record.
#[derive(Clone, Copy, PartialEq, Eq)]
pub struct Origin {
    pub at: u64,
    pub planned: Option<Spot>,
    pub passed: Option<Spot>,
}
