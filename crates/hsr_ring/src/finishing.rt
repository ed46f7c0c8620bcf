//! The finished run that orders lead to.
ghost use Rattle.std.specs.Prelude.{◌≡◌, ◌≤◌, IfErr, IfOk};
ghost use Rattle.hsr_duptable.specs.Table.{IsTableSize};
ghost use Rattle.hsr_ring.specs.Finishing.{IsFinishedBy, IsUnfinishedBy, halted};
ghost use Rattle.hsr_ring.specs.Playing.{Plays};
ghost use Rattle.hsr_world_laws.specs.World.{new_world};

use crate::playing::play;
use crate::world::World;
use hsr_finished_run::{CheckFault, Closed, Disagree};
use hsr_scenario::Order;
use hsr_topology::Topology;
use hsr_world_steps::{DrainFault, WorldFault};
use std::alloc::Global;

/// Why orders lead to no finished run.
/// Orders are counted from 0.
#[derive(Clone, Copy, PartialEq, Eq)]
pub enum Unfinished {
    /// The order with this index is refused, and not because an allocation failed.
    Step(usize, DrainFault),
    /// The world can't be closed, for this cause.
    Check(Disagree),
    /// Allocation failed, wherever that was.
    Memory,
}

/// Why there is no finished run where the order at an index is refused.
fn halted(index: usize, fault: DrainFault) -> Unfinished
    ensures { result ≡ halted index fault }
{
    match fault {
        // A failed allocation is one fault, wherever it comes: no user has to look for it in the faults below. Its order isn't named.
        DrainFault::World(WorldFault::NoMemory) => Unfinished::Memory,
        _ => Unfinished::Step(index, fault),
    }
}

/// The world that orders lead to.
fn played<const C: usize>(
    alloc: Global,
    topology: Topology,
    capacity: usize,
    orders: &[Order],
) -> Result<World<C>, Unfinished>
    requires entries { IsTableSize C }
    requires room { (1 ≤ capacity) × (capacity ≤ 4096) }
    ensures ok { IfOk result (λ w. Plays C orders.now
        (new_world capacity topology.places topology.links) w) }
    ensures err { IfErr result (λ u. IsUnfinishedBy C topology capacity orders.now u) }
{
    let Ok(mut world) = World::<C>::new(alloc, topology, capacity) else {
        return Err(Unfinished::Memory);
    };
    match play(&mut world, orders) {
        Ok(()) => Ok(world),
        Err((index, fault)) => Err(halted(index, fault)),
    }
}

/// The finished run that orders lead to, in a new world of the topology, where `capacity` copies wait in each direction of a link, with
/// tables of `C` entries. Else why there is none: the index of the first order that is refused, the first cause why the world isn't
/// closed, or a failed allocation.
pub fn finished<const C: usize>(
    alloc: Global,
    topology: Topology,
    capacity: usize,
    orders: &[Order],
) -> Result<Closed<C>, Unfinished>
    requires entries { IsTableSize C }
    requires room { (1 ≤ capacity) × (capacity ≤ 4096) }
    ensures ok { IfOk result (λ c. IsFinishedBy C topology capacity orders.now c) }
    ensures err { IfErr result (λ u. IsUnfinishedBy C topology capacity orders.now u) }
{
    let world = played::<C>(alloc, topology, capacity, orders)?;
    match world.close() {
        Ok(closed) => Ok(closed),
        // The world is let go: it was made here, and nobody else has it.
        Err((_world, fault)) => match fault {
            CheckFault::Disagree(cause) => Err(Unfinished::Check(cause)),
            CheckFault::NoMemory => Err(Unfinished::Memory),
        },
    }
}
