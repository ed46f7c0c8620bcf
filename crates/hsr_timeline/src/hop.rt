//! A copy's way over a link.
use crate::origin::Spot;

/// The way of a copy over a link: the link, and the index of its row there, both from 0; the entry that passed it, and the entry that
/// judged it. A copy that was lost was judged by none.
#[derive(Clone, Copy, PartialEq, Eq)]
pub struct Hop {
    pub link: usize,
    pub number: usize,
    pub passed: Option<Spot>,
    pub judged: Option<Spot>,
}
