//! A lost copy of a send.
use hsr_link::{Dir, Fate};

/// A copy that was lost: the number of the link, its direction, and its fate: `LostDown`, `LostCut` or `LostOverrun`.
#[derive(Clone, Copy, PartialEq, Eq)]
pub struct Loss {
    pub link: usize,
    pub dir: Dir,
    pub fate: Fate,
}
