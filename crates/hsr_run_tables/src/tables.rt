//! The tables of a finished run, its call.
ghost use Rattle.std.specs.Prelude.{IfOk};
ghost use Rattle.hsr_run_tables.specs.Tables.{AreTables};

use crate::doubt::doubt_table;
use crate::latency::latency_table;
use crate::links::link_table;
use crate::load::load_table;
use crate::nodes::node_table;
use crate::sends::send_table;
use hsr_finished_run::Closed;
use hsr_frame::NoMemory;
use hsr_naming::Naming;
use hsr_options::Scope;
use hsr_report::Finding;
use std::alloc::Global;

/// The tables of a run, each as the text of a file: records of comma-separated values, each ended by a line feed, the first of
/// which names the columns (RFC 4180). REFERENCE has the columns and their units.
#[derive(Drop)]
pub struct RunTables {
    /// A row for each node, with its counters.
    pub nodes: Vec<u8>,
    /// A row for each link, with its ends and what became of its copies.
    pub links: Vec<u8>,
    /// A row for each send, with who got it.
    pub sends: Vec<u8>,
    /// A row for each channel that carried a copy, a direction of a link.
    pub load: Vec<u8>,
    /// A row for each node that took up a frame.
    pub latency: Vec<u8>,
    /// One row of what the audit found.
    pub doubt: Vec<u8>,
}

/// The tables of a finished run of which the chosen audit found this: the facts of its report, one a cell. Nodes, entries and ports
/// are called as by `naming`; other numbers are in decimal digits, moments and times in microseconds, rates in kbit/s. `NoMemory` if
/// allocation fails, or where a channel's octets are more than numbers of 64 bits tell.
pub fn run_tables<const C: usize>(
    alloc: Global,
    closed: &Closed<C>,
    naming: &Naming,
    scope: Scope,
    finding: Finding,
) -> Result<RunTables, NoMemory>
    ensures { IfOk result (λ tables.
        AreTables naming.now closed.now.run scope finding tables) }
{
    Ok(RunTables {
        nodes: node_table(alloc, naming, closed)?,
        links: link_table(alloc, naming, closed)?,
        sends: send_table(alloc, naming, closed)?,
        load: load_table(alloc, naming, closed)?,
        latency: latency_table(alloc, naming, closed)?,
        doubt: doubt_table(alloc, naming, scope, finding)?,
    })
}
