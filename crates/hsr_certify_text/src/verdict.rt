//! What is found of a scenario.
ghost use Rattle.std.specs.Prelude.{IfOk};
ghost use Rattle.hsr_table_size.specs.Sizes.{capacity_of};
ghost use Rattle.hsr_certify.specs.Verdict.{setup_of};
ghost use Rattle.hsr_certify_text.specs.Found.{IsFound};

use hsr_certify::{Certified, CertifyFault, Doubt, certify};
use hsr_frame::NoMemory;
use hsr_scenario::Order;
use hsr_table_size::TableSize;
use hsr_topology::Topology;
use std::alloc::Global;

/// So many steps, and a node may refuse an event for its number.
const STEP_LIMIT: usize = 1 << 32;

/// A verdict on a scenario: a certificate, or the first doubt.
#[derive(Clone, Copy, PartialEq, Eq)]
pub enum Verdict {
    Certified(Certified),
    Doubted(Doubt),
}

/// The verdict on a scenario, in any order of its copies, as `certify` of hsr_certify has it.
///
/// `room` copies wait in each direction of a link, nodes have tables of the size `table`, and with `within` only those orders are meant
/// in which a copy lives less than so many microseconds behind its send. Where it is certified, what `HoldsInAnyOrder` says holds.
/// `NoMemory` if allocation fails, and for 2^32 steps or more: their worlds wouldn't find memory.
pub fn found(
    alloc: Global,
    topology: &Topology,
    room: usize,
    table: TableSize,
    orders: &[Order],
    within: Option<u64>,
) -> Result<Verdict, NoMemory>
    ensures { IfOk result (IsFound (setup_of topology.now room (capacity_of table)
        orders.now within)) }
{
    if orders.len() >= STEP_LIMIT {
        return Err(NoMemory);
    }
    match certify(
        alloc,
        topology,
        room,
        table.capacity() as usize,
        orders,
        within,
    ) {
        Ok(certified) => Ok(Verdict::Certified(certified)),
        Err(CertifyFault::Doubt(doubt)) => Ok(Verdict::Doubted(doubt)),
        Err(CertifyFault::NoMemory) => Err(NoMemory),
    }
}
