//! An arrow, and how it looks.
use hsr_timeline::{Shown, Spot, Stamp};

/// What became of a copy.
#[derive(Clone, Copy, PartialEq, Eq)]
pub enum Look {
    /// It was taken up.
    TakenUp,
    /// It was sent on, and not taken up.
    SentOn,
    /// Each egress that wanted it remembered it.
    Again,
    /// It came back to its sender.
    Home,
    /// No egress wanted it, or it wasn't to come there.
    Refused,
    /// It was lost.
    Lost,
}

/// The way of a copy: its row, with where it stands in the order of time; the entry that passed it, with its stamp; and the
/// entry that judged it, none where it was lost.
#[derive(Clone, Copy, PartialEq, Eq)]
pub struct Arrow {
    pub row: Shown,
    pub passed: Option<Spot>,
    pub start: Option<Stamp>,
    pub judged: Option<Spot>,
    pub look: Look,
}
