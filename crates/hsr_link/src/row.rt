//! What a link tells of each copy.
ghost use Rattle.std.specs.Prelude.{◌≡◌, IfOk};
ghost use Rattle.hsr_link.specs.Rows.{is_lost};

use hsr_frame::NoMemory;
use hsr_node::Carried;

/// A direction of a link.
#[derive(Clone, Copy, PartialEq, Eq)]
pub enum Dir {
    /// From the first end to the second.
    Forth,
    /// From the second end to the first.
    Back,
}

/// What became of a copy.
#[derive(Clone, Copy, PartialEq, Eq)]
pub enum Fate {
    /// It waits to be taken.
    Queued,
    /// It was taken at the other end.
    Taken,
    /// It was put on a cut link.
    LostDown,
    /// It waited when the link was cut.
    LostCut,
    /// It was put while its queue was full.
    LostOverrun,
}

/// One copy that was put or injected, and what became of it.
/// `injected` says that no port sent it.
#[derive(Clone, Drop, PartialEq, Eq)]
pub struct Row {
    pub dir: Dir,
    pub carried: Carried,
    pub injected: bool,
    pub fate: Fate,
}

impl Fate {
    /// Whether the copy was lost: it neither waits nor was taken.
    pub fn is_lost(self) -> bool
        ensures { result ≡ is_lost self }
    {
        matches!(self, Fate::LostDown | Fate::LostCut | Fate::LostOverrun)
    }
}

impl Row {
    /// An equal row; `NoMemory` where its allocation fails.
    pub fn copy(&self) -> Result<Row, NoMemory>
        ensures { IfOk result (λ row. row ≡ self.now) }
    {
        Ok(self.clone()?)
    }
}
