//! What each link and each node that is off from the start cuts off.
ghost use Rattle.std.specs.Prelude.{◌≡◌, ◌<◌, ◌≤◌, ◌-◌, ◌^◌, min, length, IfOk, OnOk};
ghost use Rattle.hsr_routes.specs.Routes.{bare};
ghost use Rattle.hsr_plan_report.specs.Outages.{AddsRow, AreOutageRows, all_faults, missed_of, sends_from};

use hsr_faults::{Cut, Fault, Off, Outage, Sweep, faults_of_one};
use hsr_frame::NoMemory;
use hsr_plan_network::Node;
use hsr_plan_outages::{put_fault, put_node};
use hsr_plan_page::OutageRow;
use hsr_scenario::Order;
use hsr_text::{put, put_count};
use hsr_topology::Topology;
use std::alloc::Global;

/// The nodes of a set that are among so many.
fn nodes_of(alloc: Global, cut: &Cut, nodes: usize) -> Result<Vec<usize>, NoMemory> {
    let mut list = Vec::new(alloc);
    for node in 0..nodes.min(64) {
        if cut.nodes.has(node) {
            list.push(node)?;
        }
    }
    Ok(list)
}

/// Puts who is cut off from whom last, as `19 of prot1 from bcu1, bcu2`.
fn put_cut(alloc: Global, text: &mut Vec<u8>, nodes: &[Node], cut: &Cut) -> Result<(), NoMemory> {
    put_count(text, b"", cut.sends as u64)?;
    put(text, " of ")?;
    put_node(text, nodes, cut.sender)?;
    let mut mark = " from ";
    for node in &nodes_of(alloc, cut, nodes.len())? {
        put(text, mark)?;
        put_node(text, nodes, *node)?;
        mark = ", ";
    }
    Ok(())
}

/// All that is cut off, in words.
fn cuts_of(alloc: Global, nodes: &[Node], cuts: &[Cut]) -> Result<Vec<u8>, NoMemory> {
    let mut text = Vec::new(alloc);
    for (at, cut) in cuts.iter().enumerate() {
        if at > 0 {
            put(&mut text, "; ")?;
        }
        put_cut(alloc, &mut text, nodes, cut)?;
    }
    Ok(text)
}

/// How many sends are cut off from a node.
fn missed_by(cuts: &[Cut], node: usize) -> usize
    requires { node < 64 }
    ensures { result ≡ min (sends_from node cuts.now) (2 ^ 64 - 1) }
{
    let mut missed = 0usize;
    for cut in cuts {
        if cut.nodes.has(node) {
            missed = missed.saturating_add(cut.sends);
        }
    }
    missed
}

/// How many sends are cut off from each of so many nodes.
fn missed_of(alloc: Global, nodes: usize, cuts: &[Cut]) -> Result<Vec<usize>, NoMemory>
    requires { nodes ≤ 64 }
    ensures { IfOk result (λ missed. missed.items ≡ missed_of nodes cuts.now) }
{
    let mut missed = Vec::new(alloc);
    for node in 0..nodes {
        missed.push(missed_by(cuts, node))?;
    }
    Ok(missed)
}

/// The numbers of the link and of the node that alone is off.
pub(crate) fn off_in(fault: Fault) -> (Option<usize>, Option<usize>) {
    match fault {
        Fault::One(Off::Link(number)) => (Some(number), None),
        Fault::One(Off::Node(number)) => (None, Some(number)),
        Fault::Two(_, _) => (None, None),
    }
}

/// The row of what a fault cuts off.
fn row_of(
    alloc: Global,
    nodes: &[Node],
    topology: &Topology,
    outage: &Outage,
) -> Result<OutageRow, NoMemory>
    ensures sends { IfOk result (λ row. row.sends ≡ outage.now.sends) }
    ensures missed { IfOk result (λ row. row.missed.items
        ≡ missed_of (length topology.now.places) outage.now.cuts.items) }
{
    let mut off = Vec::new(alloc);
    put_fault(&mut off, nodes, topology.links(), outage.fault)?;
    let (link, node) = off_in(outage.fault);
    let cuts = outage.cuts.as_slice();
    Ok(OutageRow {
        off,
        link,
        node,
        sends: outage.sends,
        missed: missed_of(alloc, topology.places().len(), cuts)?,
        cuts: cuts_of(alloc, nodes, cuts)?,
    })
}

/// Puts the row of a fault last.
fn push_row(
    alloc: Global,
    rows: &mut Vec<OutageRow>,
    nodes: &[Node],
    topology: &Topology,
    sweep: &Sweep<'_>,
    fault: Fault,
) -> Result<(), NoMemory>
    requires { topology.now.places ≡ sweep.now.net.places }
    ensures { OnOk result (AddsRow sweep.now fault rows.old.items rows.new.items) }
{
    let outage = sweep.outage(alloc, fault)?;
    let row = row_of(alloc, nodes, topology, &outage)?;
    rows.push(row)?;
    Ok(())
}

/// The rows of faults.
fn rows_of(
    alloc: Global,
    nodes: &[Node],
    topology: &Topology,
    sweep: &Sweep<'_>,
    faults: &[Fault],
) -> Result<Vec<OutageRow>, NoMemory>
    requires { topology.now.places ≡ sweep.now.net.places }
    ensures { IfOk result (λ rows. AreOutageRows sweep.now faults.now (length faults.now) rows.items) }
{
    let mut rows = Vec::new(alloc);
    for fault in faults {
        push_row(alloc, &mut rows, nodes, topology, sweep, *fault)?;
    }
    Ok(rows)
}

/// What each link and each node of a topology cuts off that is off from the start, in some order of the copies of these steps.
pub(crate) fn outage_rows(
    alloc: Global,
    nodes: &[Node],
    topology: &Topology,
    orders: &[Order],
    within: Option<u64>,
) -> Result<Vec<OutageRow>, NoMemory>
    ensures { let net = bare topology.now.places topology.now.links in
        IfOk result (λ rows. AreOutageRows (record { net = net; orders = orders.now; within = within }) (all_faults net)
        (length (all_faults net)) rows.items) }
{
    let sweep = Sweep::new(alloc, topology, orders, within)?;
    let faults = faults_of_one(alloc, topology)?;
    rows_of(alloc, nodes, topology, &sweep, faults.as_slice())
}
