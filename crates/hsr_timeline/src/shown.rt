//! A row in the order of time.

// The derived order goes by the fields as they stand, so their order is that of time.
/// A row of a finished run, and where it stands in the order of time: by moment in microseconds, the greatest that leads there;
/// within it by step, the longest chain of causes; then by the node and place of an entry. That is the entry that judged the copy; or
/// where the copy was lost the one that passed it. Rows that one entry judged and lost copies that it passed stand in this order,
/// and these by link and number, the index of the row on the link.
#[derive(Clone, Copy, PartialEq, Eq, PartialOrd, Ord)]
pub struct Shown {
    pub moment: u64,
    pub step: u64,
    pub node: usize,
    pub place: usize,
    pub is_lost: bool,
    pub link: usize,
    pub number: usize,
}
