//! The run of what a plan means, without a scenario between, and what its nodes are called.
ghost use Rattle.std.specs.Prelude.{◌≡◌, IfErr, IfOk, map};
ghost use Rattle.hsr_duptable.specs.Table.{IsTableSize};
ghost use Rattle.hsr_ring.specs.Finishing.{IsFinishedBy};
ghost use Rattle.hsr_timeline.specs.Fronts.{lists_of};
ghost use Rattle.hsr_plan_scenario.specs.Runs.{HasNoRun, IsKnownRun};

use hsr_finished_run::Closed;
use hsr_frame::NoMemory;
use hsr_plan_network::Node;
use hsr_plan_schedule::Meaning;
use hsr_ring::{Unfinished, finished};
use std::alloc::Global;

/// How many copies may wait in each direction of a link.
pub(crate) const CAPACITY_LIMIT: usize = 4096;

/// The names of nodes, as octets that are owned; `NoMemory` if allocation fails.
pub fn node_names(alloc: Global, nodes: &[Node]) -> Result<Vec<Vec<u8>>, NoMemory>
    ensures { IfOk result (λ names. lists_of names.items ≡ map (λ node. node.name) nodes.now) }
{
    let mut names = Vec::new(alloc);
    for node in nodes.iter() {
        names.push(Vec::from_slice(alloc, node.name.as_bytes())?)?;
    }
    Ok(names)
}

/// The finished run of what a plan means, with duplicate tables of `C` entries (IEC 62439-3 clause 5): as of its scenario, but none of the
/// limits of a scenario stands in the way. Else why its orders lead to none: the first that is refused, or what is left behind the last;
/// or `Memory` where allocation fails.
pub fn run_meant<const C: usize>(alloc: Global, meaning: &Meaning) -> Result<Closed<C>, Unfinished>
    requires { IsTableSize C }
    ensures ok { IfOk result (IsFinishedBy C meaning.now.topology meaning.now.capacity
        meaning.now.orders) }
    ensures none { IfErr result (λ fault. IsKnownRun fault → HasNoRun C meaning.now) }
{
    // Not met: no plan that is read has another capacity.
    if meaning.capacity < 1 || meaning.capacity > CAPACITY_LIMIT {
        return Err(Unfinished::Memory);
    }
    // A copy, since the run takes the topology.
    let Ok(topology) = meaning.topology.copy() else {
        return Err(Unfinished::Memory);
    };
    let orders = meaning.orders.as_slice();
    match finished::<C>(alloc, topology, meaning.capacity, orders) {
        Ok(closed) => Ok(closed),
        Err(fault) => Err(fault),
    }
}
