//! The report of a finished run.
ghost use Rattle.std.specs.Prelude.{◌≡◌, ◌<◌, ◌^◌, ◌++◌, count_by, length, IfOk, OnOk};
ghost use Rattle.hsr_frame.specs.Counters.{AreWithin};
ghost use Rattle.hsr_finished_run.specs.Finished.{IsFinished};
ghost use Rattle.hsr_run_laws.specs.Run.{place_of};
ghost use Rattle.hsr_report.specs.Found.{IsReportOf};
ghost use Rattle.hsr_report.specs.Report.{head_line, head_text, is_row_lost, is_row_taken, link_line, link_lines, node_lines, node_text, report};

use crate::finding::{Finding, put_finding};
use crate::network::put_network;
use crate::parts::parts;
use hsr_finished_run::Closed;
use hsr_frame::{Counters, NoMemory};
use hsr_link::{Fate, Row};
use hsr_naming::Naming;
use hsr_node::Role;
use hsr_node_text::put_counters;
use hsr_options::{Asked, Scope};
use hsr_text::{put, put_count};
use std::alloc::Global;

fn is_taken(row: &Row) -> bool
    ensures { result ≡ is_row_taken row.now }
{
    matches!(row.fate, Fate::Taken)
}

/// How many rows of a link are of taken copies.
fn taken_of(rows: &[Row]) -> usize
    ensures { result ≡ count_by is_row_taken rows.now }
{
    rows.iter().filter(|row| is_taken(row)).count()
}

/// How many rows of a link are of lost copies.
fn lost_of(rows: &[Row]) -> usize
    ensures { result ≡ count_by is_row_lost rows.now }
{
    rows.iter().filter(|row| row.fate.is_lost()).count()
}

/// Puts the line of a link: its number, and how many copies were put on it, taken and lost. `NoMemory` if allocation
/// fails; a front of the line may stand there then.
#[tactic(auto, unfolding(crate::specs::Report::link_line))]
pub fn put_link(text: &mut Vec<u8>, link: usize, rows: &[Row]) -> Result<(), NoMemory>
    ensures { OnOk result (text.new.items ≡ text.old.items ++ link_line link rows.now) }
{
    put_count(text, b"link ", link as u64)?;
    put_count(text, b" put ", rows.len() as u64)?;
    put_count(text, b" taken ", taken_of(rows) as u64)?;
    put_count(text, b" lost ", lost_of(rows) as u64)?;
    put(text, "\n")
}

/// Puts the line of a node: what it is called, its role, and how often each thing happened there. `NoMemory` if allocation
/// fails; a front of the line may stand there then.
#[tactic(auto, unfolding(crate::specs::Report::node_text))]
pub fn put_node(
    text: &mut Vec<u8>,
    naming: &Naming,
    node: usize,
    role: Role,
    counters: &Counters,
) -> Result<(), NoMemory>
    requires { AreWithin counters.now (2 ^ 62) }
    ensures { OnOk result (text.new.items ≡ text.old.items ++ node_text naming.now node role counters.now) }
{
    put(text, "node ")?;
    naming.put_node(text, node)?;
    put(text, " ")?;
    put(text, role.word())?;
    put(text, " ")?;
    put_counters(text, counters)
}

/// Puts the line of the bench: how many entries a table has, and how many nodes and links there are. `NoMemory` if
/// allocation fails; a front of the line may stand there then.
#[tactic(auto, unfolding(crate::specs::Report::head_text))]
pub fn put_head(
    text: &mut Vec<u8>,
    capacity: usize,
    nodes: usize,
    links: usize,
) -> Result<(), NoMemory>
    ensures { OnOk result (text.new.items ≡ text.old.items ++ head_text capacity nodes links) }
{
    put_count(text, b"bench 1 table ", capacity as u64)?;
    put_count(text, b" nodes ", nodes as u64)?;
    put_count(text, b" links ", links as u64)?;
    put(text, "\n")
}

/// Puts the line of the bench of a finished run.
fn put_first<const C: usize>(text: &mut Vec<u8>, closed: &Closed<C>) -> Result<(), NoMemory>
    ensures line { OnOk result (text.new.items ≡ text.old.items ++ head_line closed.now.run) }
    ensures finished { IsFinished closed.now }
{
    let topology = closed.topology();
    put_head(text, C, topology.places().len(), topology.links().len())
}

/// Puts the line of each node.
fn put_nodes<const C: usize>(
    text: &mut Vec<u8>,
    naming: &Naming,
    closed: &Closed<C>,
) -> Result<(), NoMemory>
    ensures { OnOk result (text.new.items ≡ text.old.items
        ++ node_lines naming.now closed.now.run (length closed.now.run.places)) }
{
    for (node, place) in closed.topology().places().iter().enumerate() {
        put_node(text, naming, node, place.role(), &closed.counters(node))?;
    }
    Ok(())
}

/// Puts the line of each link.
fn put_links<const C: usize>(text: &mut Vec<u8>, closed: &Closed<C>) -> Result<(), NoMemory>
    ensures { OnOk result (text.new.items ≡ text.old.items ++ link_lines closed.now.run
        (length closed.now.run.links)) }
{
    for link in 0..closed.topology().links().len() {
        put_link(text, link, closed.rows(link))?;
    }
    Ok(())
}

/// Forms the report of a finished run of which the chosen audit found this, with these parts before its last lines.
#[tactic(auto, unfolding(crate::specs::Report::report))]
fn report_with<const C: usize>(
    alloc: Global,
    closed: &Closed<C>,
    naming: &Naming,
    scope: Scope,
    finding: Finding,
    parts: &[u8],
) -> Result<Vec<u8>, NoMemory>
    ensures text { IfOk result (λ text. text.items
        ≡ report naming.now scope closed.now.run finding parts.now) }
    ensures finished { IsFinished closed.now }
{
    let mut text = Vec::new(alloc);
    put_first(&mut text, closed)?;
    put_nodes(&mut text, naming, closed)?;
    put_links(&mut text, closed)?;
    text.extend_from_slice(parts)?;
    put_network(alloc, &mut text, naming, closed, scope)?;
    put_finding(&mut text, naming, finding)?;
    Ok(text)
}

/// The report of a finished run of which the chosen audit found this: a line for the bench, for each node and for each
/// link, the parts that are asked for; of a network a line for each port on a ring without a link, and for each send
/// that no node is for; and what was found. Nodes and entries are called as the naming calls them. `NoMemory` if allocation fails.
pub fn report<const C: usize>(
    alloc: Global,
    closed: &Closed<C>,
    naming: &Naming,
    scope: Scope,
    finding: Finding,
    asked: Asked,
) -> Result<Vec<u8>, NoMemory>
    ensures text { IfOk result (λ text. IsReportOf naming.now scope asked closed.now.run finding text.items) }
    ensures finished { OnOk result (IsFinished closed.now) }
{
    // Formed before the rest and lent: a function that owns one value has few returns on which others are dropped.
    let parts = parts(alloc, closed, naming, asked)?;
    report_with(alloc, closed, naming, scope, finding, parts.as_slice())
}
