//! The latencies of a finished run.
ghost use Rattle.std.specs.Prelude.{◌≡◌, ◌<◌, [], ◌++◌, length, option_map, IfOk, OnOk};
ghost use Rattle.std.specs.List.{cons_option};
ghost use Rattle.hsr_run_laws.specs.Run.{record_of};
ghost use Rattle.hsr_latency.specs.Delays.{delays, greatest};
ghost use Rattle.hsr_latency.specs.Latencies.{latencies, latency_by, latency_of};

use crate::delay::{Arrivals, Delay};
use crate::delaying::delays;
use crate::greatest::greatest_of;
use crate::latency::{Latency, NodeLatency};
use hsr_deliveries::Tally;
use hsr_finished_run::Closed;
use hsr_frame::NoMemory;
use hsr_moments::Moments;
use hsr_node::Entry;
use std::alloc::Global;

/// How many arrivals at a node are looked at, and the one that took longest.
fn slowest<const C: usize>(
    alloc: Global,
    which: Arrivals,
    moments: &Moments<'_, C>,
    tally: &Tally<'_>,
    node: usize,
    entries: &[Entry],
) -> Result<(usize, Option<Delay>), NoMemory>
    requires tally { tally.now ≡ record_of moments.now node }
    requires entries { entries.now ≡ record_of moments.now node }
    ensures many { IfOk result (λ slowest. slowest.0 ≡ length (delays which moments.now node)) }
    ensures most { IfOk result (λ slowest. slowest.1 ≡ greatest (delays which moments.now node)) }
{
    let delays = delays(alloc, which, moments, tally, node, entries)?;
    Ok((delays.len(), greatest_of(delays.as_slice())))
}

/// The latency of a node where so many went up, if any did, with the one of them that took longest and the second copy that did.
fn latency_with(
    node: usize,
    frames: usize,
    worst: Option<Delay>,
    second: Option<Delay>,
) -> Option<NodeLatency>
    ensures { result ≡ option_map (latency_by node frames second) worst }
{
    match worst {
        None => None,
        Some(worst) => Some(NodeLatency {
            node,
            frames,
            worst,
            second,
        }),
    }
}

/// The latency of a node, if a frame went up there.
fn node_latency<const C: usize>(
    alloc: Global,
    moments: &Moments<'_, C>,
    closed: &Closed<C>,
    node: usize,
) -> Result<Option<NodeLatency>, NoMemory>
    requires node { node < length closed.now.run.places }
    requires moments { moments.now ≡ closed.now.run }
    ensures { IfOk result (λ latency. latency ≡ latency_of closed.now.run node) }
{
    let entries = closed.entries(node);
    // Which sends went up is known before their copies are looked at: a second copy may come before the first goes up.
    let tally = Tally::new(alloc, entries)?;
    let (frames, worst) = slowest(alloc, Arrivals::Up, moments, &tally, node, entries)?;
    let (_, second) = slowest(alloc, Arrivals::Second, moments, &tally, node, entries)?;
    Ok(latency_with(node, frames, worst, second))
}

/// Puts a latency last, if there is one.
fn push_some(latencies: &mut Vec<NodeLatency>, latency: Option<NodeLatency>) -> Result<(), NoMemory>
    ensures { OnOk result (latencies.new.items ≡ latencies.old.items ++ cons_option latency []) }
{
    if let Some(latency) = latency {
        latencies.push(latency)?;
    }
    Ok(())
}

/// The latencies of all nodes, by the effective moments of entries.
fn latencies_by<const C: usize>(
    alloc: Global,
    moments: &Moments<'_, C>,
    closed: &Closed<C>,
) -> Result<Vec<NodeLatency>, NoMemory>
    requires { moments.now ≡ closed.now.run }
    ensures { IfOk result (λ list. list.items ≡ latencies closed.now.run) }
{
    let mut list = Vec::new(alloc);
    for node in 0..closed.topology().places().len() {
        let latency = node_latency(alloc, moments, closed, node)?;
        push_some(&mut list, latency)?;
    }
    Ok(list)
}

/// The latencies of all nodes, by node.
fn latencies<const C: usize>(
    alloc: Global,
    closed: &Closed<C>,
) -> Result<Vec<NodeLatency>, NoMemory>
    ensures { IfOk result (λ list. list.items ≡ latencies closed.now.run) }
{
    let moments = Moments::new(alloc, closed)?;
    latencies_by(alloc, &moments, closed)
}

/// How long sends took to each node of a finished run that took up a frame, by node: how many arrivals went up there and which of
/// them took longest, and which took longest of the arrivals of a send of which another copy went up there. The time is that from
/// the send's effective moment to the arrival's. `NoMemory` if allocation fails.
pub fn latency_of<const C: usize>(alloc: Global, closed: &Closed<C>) -> Result<Latency, NoMemory>
    ensures { IfOk result (λ latency. latency.nodes.items ≡ latencies closed.now.run) }
{
    Ok(Latency {
        nodes: latencies(alloc, closed)?,
    })
}
