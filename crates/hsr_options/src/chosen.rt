//! What a command line chooses.
ghost use Rattle.hsr_frame.specs.Address.{IsGroup};

use crate::role::NodeRole;
use hsr_frame::{Mac, Mode};
use hsr_table_size::TableSize;
use hsr_text::TimeUnit;

/// The parts that a report has before its last line, each where it is asked for, in this order.
#[derive(Clone, Copy, PartialEq, Eq)]
pub struct Asked {
    /// A line for each direction of a link that carried a copy, and the one with the most in a millisecond.
    pub load: bool,
    /// A line for each node that took up a frame, and the slowest of all.
    pub latency: bool,
    /// A line for each send that isn't complete, and how many are.
    pub deliveries: bool,
    /// A line of how many entries the duplicate tables needed.
    pub needed: bool,
    /// A line of whether duplicate tables of this size hold all that is sent.
    pub budget: bool,
}

impl Asked {
    /// None of them.
    pub const NOTHING: Asked = Asked {
        load: false,
        latency: false,
        deliveries: false,
        needed: false,
        budget: false,
    };

    /// All of them.
    pub const ALL: Asked = Asked {
        load: true,
        latency: true,
        deliveries: true,
        needed: true,
        budget: true,
    };
}

/// Which runs an audit may certify.
#[derive(Clone, Copy, PartialEq, Eq)]
pub enum Scope {
    /// Those of one ring of DANHs.
    Ring,
    /// Those of any network.
    Network,
}

/// What is written of a finished run.
#[derive(Clone, Copy, PartialEq, Eq)]
pub enum Form {
    /// Its transcript.
    Transcript,
    /// Its report, with the parts that are asked for.
    Report(Asked),
}

/// What is shown of a finished run: which audit its last line and the status are of, and what is written.
#[derive(Clone, Copy, PartialEq, Eq)]
pub struct Showing {
    pub scope: Scope,
    pub form: Form,
    /// Whether a report and tables have the names of the scenario's nodes and streams in place of numbers.
    pub names: bool,
}

impl Showing {
    /// The transcript; the status is of a ring's audit.
    pub const TRANSCRIPT: Showing = Showing {
        scope: Scope::Ring,
        form: Form::Transcript,
        names: false,
    };

    /// The report of a ring's audit with no parts asked for.
    pub const REPORT: Showing = Showing {
        scope: Scope::Ring,
        form: Form::Report(Asked::NOTHING),
        names: false,
    };
}

/// Which size of tables an audit takes.
#[derive(Clone, Copy, PartialEq, Eq)]
pub enum TableChoice {
    /// This one.
    Given(TableSize),
    /// That of which the transcript tells.
    Told,
}

/// The node that `node` runs. No group has its address. Address and mode say nothing of a QuadBox.
#[derive(Clone, Copy, PartialEq, Eq)]
pub struct NodeOptions {
    pub role: NodeRole,
    pub mac: Mac,
    pub mode: Mode,
    pub table: TableSize,
    /// The unit of the moments in its lines.
    pub unit: TimeUnit,
    pub ghost station: { ¬ IsGroup mac },
}

/// What to do. Paths are those of the words that choose it.
#[derive(Clone, Copy, PartialEq, Eq)]
pub enum Options<'a> {
    /// Answer lines as one node.
    Node(NodeOptions),
    /// Run a scenario, and write its transcript or its report.
    Run {
        table: TableSize,
        showing: Showing,
        /// The path of the folder into which the run's tables are written, if they are asked for.
        folder: Option<&'a str>,
        /// Whether a run that can't be closed is shown as it stands.
        shows_open: bool,
        /// Whether standard error says more of how the run ended.
        explains: bool,
    },
    /// Run a scenario in threads, and write its transcript or its report.
    Threads {
        table: TableSize,
        showing: Showing,
        /// The path of the folder into which the run's tables are written, if they are asked for.
        folder: Option<&'a str>,
        /// Whether standard error says more of how the run ended.
        explains: bool,
    },
    /// Audit a transcript, and write its report, with the parts that are asked for.
    Audit {
        table: TableChoice,
        scope: Scope,
        asked: Asked,
        /// The path of the scenario whose names a report and tables have in place of numbers, if names are asked for.
        scenario: Option<&'a str>,
        /// The path of the folder into which the run's tables are written, if they are asked for.
        folder: Option<&'a str>,
        /// Whether standard error says more of how the audit ended.
        explains: bool,
    },
    /// Say of a scenario whether it certifies delivery, whatever the order in which its copies move. Nothing is played.
    Certify {
        table: TableSize,
        /// How long after its send a copy may be under way, in microseconds, from 1 to 400000; to the next drain, where it isn't said.
        within: Option<u64>,
        /// Whether the steps that move copies are left out, and a drain is added at the end.
        is_coarse: bool,
    },
}
