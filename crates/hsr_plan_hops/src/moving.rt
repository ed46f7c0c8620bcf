//! What a plan means once its copies move.
ghost use Rattle.std.specs.Prelude.{◌≡◌, ◌↔◌, IfErr, IfOk, OnOk, true};
ghost use Rattle.hsr_duptable.specs.Table.{IsTableSize};
ghost use Rattle.hsr_world_laws.specs.Lawful.{IsEnded, finished_of};
ghost use Rattle.hsr_plan_text.specs.declared.plan.Moves.TheVariants.{Timed};
ghost use Rattle.hsr_plan_hops.specs.Moving.{MeansMoved, Moved, MovesAtPace};
ghost use Rattle.hsr_plan_hops.specs.Refusing.{IsBadPace, IsUnmoved, IsUnmovedAtPace};
ghost use Rattle.hsr_plan_hops.specs.Weaving.{EndsBadly, EndsWell, IsOpenFor, IsUnmovedBy};

use crate::advancing::woven;
use crate::timing::are_in_time;
use crate::unmoved::Unmoved;
use crate::weaving::Weaving;
use hsr_finished_run::{CheckFault, Closed};
use hsr_plan_schedule::{Meaning, meaning_of};
use hsr_plan_text::{Moves, Plan, Transfer};
use hsr_ring::World;
use hsr_scenario::Order;
use std::alloc::Global;

/// How many copies may wait in each direction of a link.
const CAPACITY_LIMIT: usize = 4096;

/// The finished run that a world is.
fn closed<const C: usize>(world: World<C>) -> Result<Closed<C>, Unmoved>
    ensures ok { IfOk result (λ run. IsEnded world.entry × (run ≡ finished_of C world.entry)) }
    ensures err { IfErr result (IsOpenFor world.entry) }
{
    match world.close() {
        Ok(closed) => Ok(closed),
        Err((_world, CheckFault::NoMemory)) => Err(Unmoved::Memory),
        Err((_world, CheckFault::Disagree(_))) => Err(Unmoved::Differs),
    }
}

/// Refuses a world that isn't ended, and one in which a copy isn't judged when it has to be.
fn check_end<const C: usize>(
    alloc: Global,
    transfer: Transfer,
    world: World<C>,
) -> Result<(), Unmoved>
    ensures ok { OnOk result (EndsWell C transfer world.entry) }
    ensures err { IfErr result (EndsBadly C transfer world.entry) }
{
    // No proof says that the run ends well, so it is looked at.
    let run = closed(world)?;
    if are_in_time(alloc, &run, transfer)? {
        Ok(())
    } else {
        Err(Unmoved::Differs)
    }
}

/// Whether copies would take no time.
fn is_bad(transfer: Transfer) -> bool
    ensures { (result ≡ true) ↔ IsBadPace transfer }
{
    // With a hop of 0 all would happen at one moment, in an order that nobody chose.
    matches!(transfer, Transfer::Hop(0))
}

/// The orders that do what is told and move copies by hops or wires.
fn ordered<const C: usize>(
    alloc: Global,
    told: &Meaning,
    transfer: Transfer,
) -> Result<Vec<Order>, Unmoved>
    requires entries { IsTableSize C }
    ensures ok { IfOk result (λ orders. MovesAtPace C transfer told.now orders.items) }
    ensures err { IfErr result (IsUnmovedAtPace C transfer told.now) }
{
    if is_bad(transfer) || told.capacity < 1 || told.capacity > CAPACITY_LIMIT {
        return Err(Unmoved::Differs);
    }
    let Weaving { stage, orders } = woven::<C>(alloc, told, transfer)?;
    check_end(alloc, transfer, stage.world)?;
    Ok(orders)
}

/// What is told, with orders that move copies by hops or wires.
fn moved_at_pace<const C: usize>(
    alloc: Global,
    told: Meaning,
    transfer: Transfer,
) -> Result<Meaning, Unmoved>
    requires entries { IsTableSize C }
    ensures ok { IfOk result (λ m. Moved C (Timed transfer) told m) }
    ensures err { IfErr result (IsUnmovedAtPace C transfer told) }
{
    let orders = ordered::<C>(alloc, &told, transfer)?;
    Ok(Meaning {
        nodes: told.nodes,
        topology: told.topology,
        at_once: told.at_once,
        capacity: told.capacity,
        orders,
        // Each frame that is told is sent, so its stream stays where it is.
        streams: told.streams,
        sends: told.sends,
    })
}

/// What is told, once copies move.
fn with_moves<const C: usize>(
    alloc: Global,
    moves: Moves,
    told: Meaning,
) -> Result<Meaning, Unmoved>
    requires entries { IsTableSize C }
    ensures ok { IfOk result (λ m. Moved C moves told m) }
    ensures err { IfErr result (IsUnmovedBy C moves told) }
{
    match moves {
        Moves::EachSendDrains | Moves::EachMomentDrains => Ok(told),
        Moves::Timed(transfer) => moved_at_pace::<C>(alloc, told, transfer),
    }
}

/// What a plan means, as `meaning_of` says. Where its copies move by hops or wires, its orders also put each copy at once, and take and
/// judge it when it comes to its end, and a RedBox sends supervision about the stations that it knows then: the run is played while its orders are
/// written, with tables of `C` entries. `Endless` comes where that takes over 2^20 orders. `Differs` comes where what comes next can't
/// be done, as where a node refuses a send; where a hop takes no time, or no world has such room; and where the run doesn't end as
/// it has to.
pub fn moved_meaning_of<const C: usize>(alloc: Global, plan: &Plan) -> Result<Meaning, Unmoved>
    requires entries { IsTableSize C }
    ensures ok { IfOk result (λ m. MeansMoved C plan.now m) }
    ensures err { IfErr result (IsUnmoved C plan.now) }
{
    match meaning_of(alloc, plan) {
        Ok(told) => with_moves::<C>(alloc, plan.outline.moves, told),
        Err(fault) => Err(Unmoved::Plan(fault)),
    }
}
