//! What is asked of a page.

/// What is asked of a plan's page: the date that stands on it, as it was handed in; from which moment on something is off in its sweeps, in
/// microseconds; the bound within which each copy is at its end, in microseconds, if the verdict in any order is to have one; and the most
/// load, in kbit/s of the worst millisecond of a direction, and the longest latency, in microseconds, with which a run isn't in doubt.
#[derive(Clone, Copy)]
pub struct Asked<'a> {
    pub date: Option<&'a str>,
    pub at: u64,
    pub within: Option<u64>,
    pub limit_load: Option<u64>,
    pub limit_latency: Option<u64>,
}
