//! What is asked of a scenario.
use hsr_table_size::TableSize;

/// What is asked of a scenario: with tables of which size, in which orders, and of which steps.
#[derive(Clone, Copy, PartialEq, Eq)]
pub struct Question {
    pub table: TableSize,
    /// Only those orders are meant in which a copy is under way for less than so many microseconds, if it is said.
    pub within: Option<u64>,
    /// Whether the steps that move copies or inject them are left out, and a drain is added at the end.
    pub is_coarse: bool,
}
