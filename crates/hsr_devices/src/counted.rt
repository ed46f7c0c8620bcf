//! What is counted of a record at a port.
ghost use Rattle.std.specs.Prelude.{◌≡◌, ◌==◌, ◌&&◌, ◌||◌, count_by};
ghost use Rattle.hsr_node.specs.Record.{has_port};
ghost use Rattle.hsr_devices.specs.Counted.{SumsAreCounters, becomes, is_at, is_counted, leaves_by};

use hsr_frame::Cause;
use hsr_node::{Entry, Event, Outcome};

/// What is counted of a record at a port: arrivals there, by what became of them, and copies that left by it.
#[derive(Clone, Copy, PartialEq, Eq)]
pub enum Counted {
    /// Arrivals.
    Arrived,
    /// Arrivals that were taken up.
    Up,
    /// Arrivals that an egress passed.
    Passed,
    /// Arrivals that each egress which wanted them remembered.
    Duplicate,
    /// Arrivals from an address of the node itself.
    Returned,
    /// Arrivals that no egress wanted.
    Foreign,
    /// Arrivals from one known station to another.
    Local,
    /// Arrivals at a ring port without an HSR tag.
    Untagged,
    /// Arrivals at an interlink or a station with an HSR tag.
    Tagged,
    /// Arrivals that were no frame.
    Malformed,
    /// Copies of the node's own frames that left.
    Own,
    /// Copies of arrivals that left.
    Forwarded,
}

/// Whether an event is an arrival at a port.
fn is_at(port: u8, event: &Event) -> bool
    ensures { result ≡ is_at port event.now }
{
    match event {
        Event::Arrive { port: by, .. } => *by == port,
        _ => false,
    }
}

/// Whether what became of an arrival is counted.
fn becomes(what: Counted, outcome: &Outcome) -> bool
    ensures { result ≡ becomes what outcome.now }
{
    match *outcome {
        Outcome::Judged { up, cause, .. } => match what {
            Counted::Arrived => true,
            Counted::Up => up,
            Counted::Passed => matches!(cause, Cause::Passed),
            Counted::Duplicate => matches!(cause, Cause::Duplicate),
            Counted::Returned => matches!(cause, Cause::Returned),
            Counted::Foreign => matches!(cause, Cause::Foreign),
            Counted::Local => matches!(cause, Cause::Local),
            Counted::Untagged => matches!(cause, Cause::Untagged),
            Counted::Tagged => matches!(cause, Cause::Tagged),
            Counted::Malformed => matches!(cause, Cause::Malformed(_)),
            Counted::Own | Counted::Forwarded => false,
        },
        _ => false,
    }
}

/// Whether a frame leaves by a port, of those by which it leaves.
fn has_port(ports: [bool; 4], port: u8) -> bool
    ensures { result ≡ has_port ports port }
{
    ports.get(usize::from(port)).copied().unwrap_or(false)
}

/// Whether a copy that left by a port is counted.
fn leaves_by(what: Counted, port: u8, outcome: &Outcome) -> bool
    ensures { result ≡ leaves_by what port outcome.now }
{
    match (what, *outcome) {
        (Counted::Own, Outcome::Sent { ports, .. } | Outcome::Life { ports, .. }) => has_port(
            ports, port,
        ),
        (Counted::Forwarded, Outcome::Judged { ports, .. }) => has_port(ports, port),
        _ => false,
    }
}

/// Whether an entry is counted at a port.
fn is_counted(what: Counted, port: u8, entry: &Entry) -> bool
    ensures { result ≡ is_counted what port entry.now }
{
    (is_at(port, &entry.event) && becomes(what, &entry.outcome))
        || leaves_by(what, port, &entry.outcome)
}

/// How many entries of a record are counted at a port.
pub fn count(entries: &[Entry], port: u8, what: Counted) -> usize
    ensures { result ≡ count_by (is_counted what port) entries.now }
{
    entries
        .iter()
        .filter(|entry| is_counted(what, port, entry))
        .count()
}

/// What is counted at the four ports that a node may have sums up to its counters, each cause to its own; and at each
/// port what was taken up was passed too.
pub fn sums_are_counters()
    ensures { SumsAreCounters }
{}
