//! Why the parts of a run don't agree.
ghost use Rattle.std.specs.Prelude.{◌≡◌};
ghost use Rattle.hsr_finished_run.specs.Disagree.{disagree_code};

use hsr_link::Dir;

/// The first thing in which the parts of a run don't agree, in the order in which they are looked at.
#[derive(Clone, Copy, PartialEq, Eq)]
pub enum Disagree {
    /// Duplicate tables have no entries or over 65535, or records or rows aren't the topology's by their number or
    /// indices, or something came by a port without a link.
    Shape,
    /// What was put on a link in a direction isn't what the node at the one end passed there.
    LinkPut { link: usize, dir: Dir },
    /// What was taken there isn't what came to the node at the other end.
    LinkTaken { link: usize, dir: Dir },
    /// A row was injected, or its copy is of no send.
    Stranger { link: usize, row: usize },
    /// A copy waits on a link.
    NotQuiet { link: usize },
    /// A worker's receipts aren't its entries, each once and in record order per node, or aren't the plan.
    Receipts { worker: u16 },
}

/// Why a run isn't closed.
#[derive(Clone, Copy, PartialEq, Eq)]
pub enum CheckFault {
    /// Its parts don't agree.
    Disagree(Disagree),
    /// Allocation failed in the check.
    NoMemory,
}

impl Disagree {
    /// Its number in texts, 1 to 6.
    pub fn code(&self) -> u8
        ensures { result ≡ disagree_code self.now }
    {
        match self {
            Disagree::Shape => 6,
            Disagree::LinkPut { .. } => 1,
            Disagree::LinkTaken { .. } => 2,
            Disagree::Stranger { .. } => 3,
            Disagree::NotQuiet { .. } => 4,
            Disagree::Receipts { .. } => 5,
        }
    }
}
