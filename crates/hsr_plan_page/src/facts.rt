//! What a page says of a plan.
use hsr_latency::NodeLatency;
use hsr_load::ChannelLoad;
use hsr_naming::Naming;
use hsr_node::Place;
use hsr_topology::End;

/// A verdict: whether it certifies delivery, its line as its command prints it, and what that means.
#[derive(Clone, Copy)]
pub struct Verdict<'a> {
    pub is_certified: bool,
    pub line: &'a str,
    pub meaning: &'a [Vec<u8>],
}

/// What was counted of the plan's run: its sends, how many of them are complete, how many entries its tables needed, the longest that a
/// send took to a receiver, in microseconds, and the most that a direction of a link carried in its worst millisecond, in kbit/s.
#[derive(Clone, Copy, PartialEq, Eq)]
pub struct Tally {
    pub sends: usize,
    pub complete: usize,
    pub needed: usize,
    pub latency: u64,
    pub load: u64,
}

/// A stream: its name, its senders, whom it is for, what it sends and how often, all in words; the nodes that send it; how many sends it had
/// and how many of these are complete; the nodes that need it and missed a send; and the longest that a send took, in microseconds, if one
/// was taken up.
#[derive(Drop)]
pub struct StreamRow {
    pub name: Vec<u8>,
    pub from: Vec<u8>,
    pub to: Vec<u8>,
    pub what: Vec<u8>,
    pub senders: Vec<usize>,
    pub sends: usize,
    pub complete: usize,
    pub missing: Vec<usize>,
    pub latency: Option<u64>,
}

/// What is cut off where a link or a node is off: what is off, in words, and the number of the link or the node; how many sends are cut off
/// from a node, in some order of their copies; of these, for each node, how many from it; and who is cut off from whom, in words.
#[derive(Drop)]
pub struct OutageRow {
    pub off: Vec<u8>,
    pub link: Option<usize>,
    pub node: Option<usize>,
    pub sends: usize,
    pub missed: Vec<usize>,
    pub cuts: Vec<u8>,
}

/// What was counted of a run of a sweep, and how many of its sends were missed by a node that needs them, and taken up twice by one.
#[derive(Clone, Copy, PartialEq, Eq)]
pub struct Counts {
    pub tally: Tally,
    pub missed: usize,
    pub twice: usize,
}

/// What came of a run in which a link or a node is off: what is off, in words, and its number; what was counted; and the budget and what
/// was found, in words.
#[derive(Drop)]
pub struct CaseRow {
    pub off: Vec<u8>,
    pub link: Option<usize>,
    pub node: Option<usize>,
    pub counts: Counts,
    pub budget: Vec<u8>,
    pub found: Vec<u8>,
}

/// An event of the plan: its moment in microseconds, and what happens, in words.
#[derive(Drop)]
pub struct EventRow {
    pub at: u64,
    pub what: Vec<u8>,
}

/// What a page says of a plan.
#[derive(Clone, Copy)]
pub struct Facts<'a> {
    pub title: &'a str,
    /// The date that was handed in.
    pub date: Option<&'a str>,
    /// The version of the program that makes the page.
    pub version: &'a str,
    /// How many octets the plan's text has, and their sum (SHA-256) in hexadecimal digits.
    pub octets: usize,
    pub sum: &'a str,
    /// The nodes by number, with their names, and the links.
    pub names: &'a [&'a str],
    pub places: &'a [Place],
    pub links: &'a [[End; 2]],
    /// What sends are called.
    pub naming: &'a Naming,
    /// How copies move, in words.
    pub moves: &'a str,
    /// The bound within which a copy is at its end, in microseconds, if the verdict in any order is asked for with one.
    pub within: Option<u64>,
    /// From which moment on links and nodes are off, in microseconds.
    pub at: u64,
    /// The most load and the longest latency, if a limit is asked for.
    pub limit_load: Option<u64>,
    pub limit_latency: Option<u64>,
    /// What a direction of a link carries, in kbit/s.
    pub rate: u64,
    pub in_any_order: Verdict<'a>,
    pub in_run: Verdict<'a>,
    pub tally: Tally,
    /// What the tables spent of the budget, in words, and how many entries they have.
    pub budget: &'a str,
    pub table: usize,
    pub streams: &'a [StreamRow],
    pub loads: &'a [ChannelLoad],
    pub latencies: &'a [NodeLatency],
    /// Each link and each node off from the start, without the plan's own events.
    pub outages: &'a [OutageRow],
    /// The sweep with the plan's own events, and without them where it has some; the undisturbed run is the last of each.
    pub cases: &'a [CaseRow],
    pub bare_cases: &'a [CaseRow],
    pub events: &'a [EventRow],
}
