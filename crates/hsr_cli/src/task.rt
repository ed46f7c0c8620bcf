//! What arguments of hsr_plan choose.
use hsr_options::Showing;
use hsr_table_size::TableSize;

/// Which links and nodes are taken to be off from the start, one after the other.
#[derive(Clone, Copy, PartialEq, Eq)]
pub enum Faults {
    /// None: all are on.
    None,
    /// Each link and each node.
    One,
    /// Each of them, and each two of them.
    Two,
}

/// A part of a sweep: each `of`-th case from the one with this number on, counted from 1.
#[derive(Clone, Copy, PartialEq, Eq)]
pub struct Part {
    pub number: u64,
    pub of: u64,
}

/// What a sweep is asked for.
#[derive(Clone, Copy, PartialEq, Eq)]
pub struct SweepWords {
    /// From which moment on links and nodes are off, in microseconds.
    pub at: u64,
    /// Whether the plan's own events are left out.
    pub without_events: bool,
    /// Whether each two of them are off at once too.
    pub pairs: bool,
    /// Which part of the cases is swept; all of them, where it isn't said.
    pub part: Option<Part>,
    /// The most that a direction of a link may carry in its worst millisecond, in kbit/s.
    pub limit_load: Option<u64>,
    /// The longest that a frame may take to a receiver, in microseconds.
    pub limit_latency: Option<u64>,
}

/// What a page about a plan is asked for.
#[derive(Clone, Copy, PartialEq, Eq)]
pub struct ReportWords<'a> {
    /// What stands on the page as its date, as it was handed in; none, where it isn't said.
    pub date: Option<&'a str>,
    /// From which moment on links and nodes are off in the sweep, in microseconds.
    pub at: u64,
    /// How long after its send a copy may be under way, in microseconds, from 1 to 400000; to the next drain, where it isn't said.
    pub within: Option<u64>,
    /// The most that a direction of a link may carry in its worst millisecond, in kbit/s.
    pub limit_load: Option<u64>,
    /// The longest that a frame may take to a receiver, in microseconds.
    pub limit_latency: Option<u64>,
}

/// What arguments of hsr_plan choose.
#[derive(Clone, Copy, PartialEq, Eq)]
pub enum Task<'a> {
    /// A plan is written as a scenario, for a run with tables of this size.
    Plan {
        table: TableSize,
    },
    /// A scenario is checked.
    Check,
    /// A plan is run, and shown as `hsr_bench run` shows the run of its scenario.
    Run {
        table: TableSize,
        showing: Showing,
        /// The folder into which the run's tables are put.
        folder: Option<&'a str>,
        /// Whether what a fault or a doubt means is said on standard error.
        explains: bool,
    },
    /// Each link and each node of a plan is off from a moment on, one by one.
    Sweep(SweepWords),
    /// Say of a plan whether it certifies delivery, whatever the order in which its copies move. Nothing is played.
    Certify {
        table: TableSize,
        /// How long after its send a copy may be under way, in microseconds, from 1 to 400000; to the next drain, where it isn't said.
        within: Option<u64>,
        /// Which faults it is said of.
        faults: Faults,
    },
    /// A page of HTML about a plan is written.
    Report(ReportWords<'a>),
}
