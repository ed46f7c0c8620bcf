//! How a worker ended.
use hsr_node::StepFault;

/// How a worker or an ager ended.
#[derive(Clone, Copy, PartialEq, Eq)]
pub(crate) enum Ending {
    /// It was told to stop.
    Stopped,
    /// Its gate answered false.
    Shut,
    /// Its node refused a copy.
    Refused(StepFault),
    /// Allocation failed.
    NoMemory,
}
