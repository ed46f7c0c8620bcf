//! What is asked of a plan.
use hsr_plan_outages::AtOnce;

/// What is asked of a plan, beside the size of tables: in which orders, and which links and nodes are taken to be off.
#[derive(Clone, Copy, PartialEq, Eq)]
pub struct Question {
    /// Only those orders are meant in which a copy is under way for less than so many microseconds, if it is said.
    pub within: Option<u64>,
    /// How many links or nodes are off at once, from the start, where it is also asked what they cut off.
    pub faults: Option<AtOnce>,
}
