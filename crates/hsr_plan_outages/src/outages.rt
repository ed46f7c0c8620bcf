//! The lines of all faults.
ghost use Rattle.std.specs.Prelude.{◌≡◌, IfOk, OnOk, length};
ghost use Rattle.hsr_faults.specs.Sweep.{sends_of};
ghost use Rattle.hsr_routes.specs.Routes.{bare};
ghost use Rattle.hsr_plan_outages.specs.Outages.{TellsLine, TellsLines, TellsOutages, faults_for};
ghost use Rattle.hsr_plan_outages.specs.declared.outages.AtOnce.TheVariants.{Two};

use crate::lines::{is_cutting, put_last, put_outage};
use hsr_faults::{Fault, Sweep, faults_of_one, faults_of_two};
use hsr_frame::NoMemory;
use hsr_plan_network::Node;
use hsr_scenario::Order;
use hsr_topology::{End, Topology};
use std::alloc::Global;

/// How many links or nodes are off at once.
#[derive(Clone, Copy, PartialEq, Eq)]
pub enum AtOnce {
    /// One alone.
    One,
    /// One alone, and two together.
    Two,
}

/// Each fault of one link or node, and behind these of two.
fn faults_of_both(alloc: Global, topology: &Topology) -> Result<Vec<Fault>, NoMemory>
    ensures { IfOk result (λ list. list.items
        ≡ faults_for Two (bare topology.now.places topology.now.links)) }
{
    let mut list = faults_of_one(alloc, topology)?;
    let pairs = faults_of_two(alloc, topology)?;
    list.extend_from_slice(pairs.as_slice())?;
    Ok(list)
}

/// Each fault of one link or node, or of two as well.
fn faults_for(alloc: Global, at_once: AtOnce, topology: &Topology) -> Result<Vec<Fault>, NoMemory>
    ensures { IfOk result (λ list. list.items
        ≡ faults_for at_once (bare topology.now.places topology.now.links)) }
{
    match at_once {
        AtOnce::One => faults_of_one(alloc, topology),
        AtOnce::Two => faults_of_both(alloc, topology),
    }
}

/// Puts the line of what a fault cuts off last, where it cuts something off; and says whether it does.
fn put_next(
    alloc: Global,
    text: &mut Vec<u8>,
    nodes: &[Node],
    links: &[[End; 2]],
    sweep: &Sweep<'_>,
    fault: Fault,
) -> Result<bool, NoMemory>
    requires { links.now ≡ sweep.now.net.links }
    ensures { IfOk result (λ cutting. TellsLine nodes.now sweep.now fault text.old.items text.new.items cutting) }
{
    let outage = sweep.outage(alloc, fault)?;
    put_outage(text, nodes, links, sweep.sends(), &outage)?;
    Ok(is_cutting(&outage))
}

/// Puts the lines of what faults cut off last, in order; and says how many of them cut something off.
fn put_lines(
    alloc: Global,
    text: &mut Vec<u8>,
    nodes: &[Node],
    links: &[[End; 2]],
    sweep: &Sweep<'_>,
    faults: &[Fault],
) -> Result<usize, NoMemory>
    requires { links.now ≡ sweep.now.net.links }
    ensures { IfOk result (λ cutting. TellsLines nodes.now sweep.now faults.now (length faults.now) text.old.items text.new.items cutting) }
{
    let mut cutting = 0;
    // What a fault cuts off is let go once its line stands: there are thousands of pairs.
    for fault in faults {
        if put_next(alloc, text, nodes, links, sweep, *fault)? {
            cutting += 1;
        }
    }
    Ok(cutting)
}

/// Puts last what is cut off where a link or a node of a topology is off from the start, or each two of these as well: a line for each such
/// fault that cuts off some send of these steps from some node in some order of its copies, and a line with how many of the faults do.
///
/// Nodes have these names. A copy lives less than `within` microseconds behind its send, if that is told. A line says what is off, how many
/// sends are cut off of how many, and for each sender and each list of nodes how many of its sends are cut off from just these. `NoMemory`
/// if allocation fails.
pub fn put_outages(
    alloc: Global,
    text: &mut Vec<u8>,
    nodes: &[Node],
    topology: &Topology,
    orders: &[Order],
    within: Option<u64>,
    at_once: AtOnce,
) -> Result<(), NoMemory>
    ensures { let net = bare topology.now.places topology.now.links in
        OnOk result (TellsOutages nodes.now (record { net = net; orders = orders.now; within = within }) (faults_for at_once net) text.old.items text.new.items) }
{
    let sweep = Sweep::new(alloc, topology, orders, within)?;
    let faults = faults_for(alloc, at_once, topology)?;
    let cutting = put_lines(
        alloc,
        text,
        nodes,
        topology.links(),
        &sweep,
        faults.as_slice(),
    )?;
    put_last(text, cutting, faults.len())?;
    Ok(())
}
