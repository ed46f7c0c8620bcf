//! Which rows are wanted.
use hsr_node::Probe;

/// Which rows are wanted: those of a link, counted from 0, and those whose copies are of a send. Without either it is every row.
#[derive(Clone, Copy, PartialEq, Eq)]
pub struct Choice {
    pub link: Option<usize>,
    pub send: Option<Probe>,
}

/// Why a run has nothing that can be wanted so.
#[derive(Clone, Copy, PartialEq, Eq)]
pub enum ChoiceFault {
    /// There is no such link.
    NoLink,
    /// There is no such send.
    NoSend,
}
