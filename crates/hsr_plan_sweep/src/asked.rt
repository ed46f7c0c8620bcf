//! What is asked of a sweep.

/// One of so many parts of a sweep. The first has the number 1.
#[derive(Clone, Copy, PartialEq, Eq)]
pub struct Part {
    pub number: u64,
    pub of: u64,
}

/// What is asked of a sweep: from which moment on something is off, in microseconds; whether the plan's own events are left out; whether
/// each two are tried too; one part, or the whole; and the most load, in kbit/s of the worst millisecond of a channel, and the longest latency, in microseconds, with which a
/// run isn't in doubt.
#[derive(Clone, Copy, PartialEq, Eq)]
pub struct Asked {
    pub at: u64,
    pub without_events: bool,
    pub pairs: bool,
    pub part: Option<Part>,
    pub limit_load: Option<u64>,
    pub limit_latency: Option<u64>,
}
