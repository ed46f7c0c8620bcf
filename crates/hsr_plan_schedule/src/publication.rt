//! What a stream publishes, and which of its frames is meant.
use hsr_plan_text::Word;

/// By what receivers know a stream: the APPID of its first sender and the one behind that of its last, the names of the control
/// block and the data set in each sender, goID or svID where it is said, and timeAllowedtoLive in milliseconds.
#[derive(Drop)]
pub(crate) struct Publication {
    pub first: u64,
    pub behind: u64,
    pub control_block: Word,
    pub data_set: Word,
    pub id: Option<Word>,
    pub live: u64,
}

/// A frame of a stream: the index of its sender, the number of the start that it follows, and how many were sent since.
#[derive(Clone, Copy, PartialEq, Eq)]
pub(crate) struct Turn {
    pub index: usize,
    pub state: usize,
    pub count: usize,
}
