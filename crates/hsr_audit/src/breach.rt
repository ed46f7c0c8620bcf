//! What a budget is, and why a run isn't within it.

/// A run is within budget. `most` is the greatest number of sends of all nodes, supervision frames and frames without a
/// number among them, in the 800000 microseconds that begin at the effective moment of a send; 0 where nothing was sent.
#[derive(Clone, Copy, PartialEq, Eq)]
pub struct Budget {
    pub most: usize,
}

/// Why a run isn't known to be within budget, in the order in which the reasons are tried. The effective moment of an entry
/// is the greatest that its node was given up to it, in microseconds.
#[derive(Clone, Copy, PartialEq, Eq)]
pub enum BudgetFault {
    /// An arrival's effective moment is before its send's, or 400000 microseconds after it or later (the EntryForgetTime
    /// of IEC 62439-3 clause 5). The lowest node is named, and its lowest place.
    Late { node: usize, place: usize },
    /// In the 800000 microseconds from this moment on there are more sends than a table has entries. The least such moment
    /// of a send is named.
    Crowded { moment: u64 },
    /// Allocation failed.
    NoMemory,
}
