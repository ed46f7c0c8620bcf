//! How many copies may wait in each direction of a link, where a plan doesn't say.
//!
//! Sends are in the order of their moments, so those that are over stand in front of a queue.
ghost use Rattle.std.specs.Prelude.{◌≡◌, [], IfOk, OnOk, drop, length};
ghost use Rattle.hsr_plan_schedule.specs.Room.{age_limit, is_young, moment_behind, most_open, open_behind, room, still_open, young};

use hsr_frame::NoMemory;
use hsr_plan_text::{Moves, Transfer};
use hsr_scenario::Order;
use hsr_topology::End;
use hsr_world_steps::Step;
use std::alloc::Global;
use std::collections::VecDeque;

/// How many copies may wait in each direction of a link.
pub(crate) const ROOM_LIMIT: usize = 4096;

/// How many copies may wait where fewer sends are under way.
const LEAST_ROOM: usize = 64;

/// More links than any topology has.
const LINK_LIMIT: usize = 1 << 16;

/// More microseconds than any hop has.
const HOP_LIMIT: u64 = 1 << 32;

/// How old a send may be that is under way, in microseconds; of any age, where a drain ends its way.
pub(crate) fn age_limit(moves: Moves, links: &[[End; 2]]) -> Result<Option<u64>, NoMemory>
    ensures { IfOk result (λ limit. limit ≡ age_limit moves (length links.now)) }
{
    match moves {
        Moves::EachSendDrains | Moves::EachMomentDrains | Moves::Timed(Transfer::Wire(_)) => Ok(
            None,
        ),
        Moves::Timed(Transfer::Hop(us)) => {
            // no plan that is read comes near these
            if us > HOP_LIMIT || links.len() > LINK_LIMIT {
                return Err(NoMemory);
            }
            Ok(Some(us * (2 * links.len() as u64)))
        }
    }
}

/// Whether a send of a moment isn't older than `age`.
fn is_young(age: u64, now: u64, at: u64) -> bool
    ensures { result ≡ is_young age now at }
{
    now.saturating_sub(at) <= age
}

/// How many sends stand before the first that isn't older than `age`.
#[tactic(auto, using(crate::proofs::Young::young_at, crate::proofs::Young::old_at, crate::proofs::Young::all_old))]
fn old(age: u64, now: u64, sends: &VecDeque<u64>) -> usize
    ensures { drop result sends.now.items ≡ young age now sends.now.items }
{
    for place in 0..sends.len() {
        if let Some(at) = sends.get(place)
            && is_young(age, now, *at)
        {
            return place;
        }
    }
    sends.len()
}

/// Forgets the first `count` sends.
fn forget(sends: &mut VecDeque<u64>, count: usize)
    ensures { sends.new.items ≡ drop count sends.old.items }
{
    // Only the number of turns matters: each drops the front.
    for gone in 0..count {
        sends.pop_front();
    }
}

/// Forgets the sends that are over.
fn forget_old(limit: Option<u64>, now: u64, sends: &mut VecDeque<u64>)
    ensures { sends.new.items ≡ still_open limit now sends.old.items }
{
    if let Some(age) = limit {
        let count = old(age, now, sends);
        forget(sends, count);
    }
}

/// Does with the sends that may be under way what an order does.
fn go_behind(
    limit: Option<u64>,
    now: u64,
    order: &Order,
    sends: &mut VecDeque<u64>,
) -> Result<(), NoMemory>
    ensures { OnOk result (sends.new.items ≡ open_behind limit now order.now sends.old.items) }
{
    match order {
        Order::Step(Step::Send { .. } | Step::Supervise { .. }) => {
            forget_old(limit, now, sends);
            sends.push_back(now)?;
        }
        Order::Drain => sends.clear(),
        Order::Step(_) => {}
    }
    Ok(())
}

/// The moment behind an order.
fn moment_behind(now: u64, order: &Order) -> u64
    ensures { result ≡ moment_behind now order.now }
{
    match order {
        Order::Step(Step::Clock { at }) => *at,
        _ => now,
    }
}

/// The most sends of orders that may be under way at once.
#[tactic(auto, using(crate::proofs::Young::most_step))]
pub(crate) fn most_open(
    alloc: Global,
    limit: Option<u64>,
    orders: &[Order],
) -> Result<usize, NoMemory>
    ensures { IfOk result (λ most. most ≡ most_open limit 0 [] orders.now) }
{
    let mut sends = VecDeque::new(alloc);
    let mut now = 0_u64;
    let mut most = 0_usize;
    let mut left = orders;
    // The rest is a variable, since the loop's invariant speaks of the moment before it.
    while let Some((order, rest)) = left.split_first() {
        most = most.max(sends.len());
        go_behind(limit, now, order, &mut sends)?;
        now = moment_behind(now, order);
        left = rest;
    }
    Ok(most.max(sends.len()))
}

/// How many copies may wait in each direction of a link, where so many sends may be under way at once.
pub(crate) fn room(said: Option<usize>, sends: usize) -> usize
    ensures { result ≡ room said sends }
{
    match said {
        Some(said) => said,
        None => LEAST_ROOM.max(sends.min(ROOM_LIMIT)),
    }
}
