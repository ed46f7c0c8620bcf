//! Where something was forgotten, mistaken or numbered late.

/// Where something that was needed was forgotten, a number mistaken, or a number given late: the number of the node, and the
/// place in its record.
#[derive(Clone, Copy, PartialEq, Eq)]
pub enum Flaw {
    /// An arrival wants an egress on which its send was noted before, and no such note was remembered.
    Forgot { node: usize, place: usize },
    /// An arrival wants an egress that remembered its source and number by a note of another send.
    Mistaken { node: usize, place: usize },
    /// A RedBox gives a frame of its Station a number, and had noted its send before.
    Late { node: usize, place: usize },
}
