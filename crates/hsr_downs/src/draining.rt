//! The drains of a scenario, each with its moment.
ghost use Rattle.std.specs.Prelude.{◌≡◌, ◌++◌, option_to_list, IfOk, OnOk};
ghost use Rattle.hsr_downs.specs.Drains.{drain_by, drains};

use crate::changing::{moment_after, planned_after};
use hsr_frame::NoMemory;
use hsr_scenario::Order;
use std::alloc::Global;

/// A drain, which brings all that is on its way to its end: its moment in microseconds, the greatest that any step before it sets, 0
/// where none does; and how many sends, supervisions and ages stand before it.
#[derive(Clone, Copy, PartialEq, Eq)]
pub struct Drain {
    pub moment: u64,
    pub planned: usize,
}

/// An order as a drain, at a moment and behind `planned` sends, supervisions and ages; none where it is another.
fn drain_by(moment: u64, planned: usize, order: &Order) -> Option<Drain>
    ensures { result ≡ drain_by moment planned order.now }
{
    match order {
        Order::Drain => Some(Drain { moment, planned }),
        Order::Step(_) => None,
    }
}

/// Puts a drain last, if there is one.
fn push_if(list: &mut Vec<Drain>, drain: Option<Drain>) -> Result<(), NoMemory>
    ensures { OnOk result (list.new.items ≡ list.old.items ++ option_to_list drain) }
{
    if let Some(drain) = drain {
        list.push(drain)?;
    }
    Ok(())
}

/// The drains of a scenario, in their order. `NoMemory` if allocation fails.
pub fn drains(alloc: Global, orders: &[Order]) -> Result<Vec<Drain>, NoMemory>
    ensures { IfOk result (λ list. list.items ≡ drains orders.now) }
{
    let mut list = Vec::new(alloc);
    let mut moment = 0;
    let mut planned = 0;
    let mut rest = orders;
    // What is left is a variable, since the loop's invariant speaks of it.
    while let Some((order, more)) = rest.split_first() {
        push_if(&mut list, drain_by(moment, planned, order))?;
        moment = moment_after(moment, order);
        planned = planned_after(planned, order);
        rest = more;
    }
    Ok(list)
}
