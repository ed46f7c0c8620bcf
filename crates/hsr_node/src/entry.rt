//! What a record holds, and what is answered for it.
ghost use Rattle.std.specs.Prelude.{◌≡◌, ◌↔◌, IsTrue};

use crate::event::{Event, Outcome};

/// An event in a node's record: who brought it, the moment as it was given, in microseconds, and what the node answered.
#[derive(Clone, Drop, PartialEq, Eq)]
pub struct Entry {
    pub worker: u16,
    pub at: u64,
    pub event: Event,
    pub outcome: Outcome,
}

/// An entry, and where it stands: the number of the node, and the place in its record.
#[derive(Clone, Drop, PartialEq, Eq)]
pub struct Receipt {
    pub node: usize,
    pub place: usize,
    pub entry: Entry,
}

impl Entry {
    /// Whether they are one entry.
    pub fn is_same(&self, other: &Entry) -> bool
        ensures { IsTrue result ↔ (self.now ≡ other.now) }
    {
        self.worker == other.worker
            && self.at == other.at
            && self.event == other.event
            && self.outcome.is_same(&other.outcome)
    }
}
