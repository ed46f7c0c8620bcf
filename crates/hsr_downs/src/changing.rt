//! The steps of a scenario that cut or mend a link.
ghost use Rattle.std.specs.Prelude.{◌≡◌, ◌<◌, ◌+◌, ◌^◌, ◌++◌, option_to_list, IfOk, OnOk};
ghost use Rattle.hsr_downs.specs.Changes.{change_by, changes, is_planned, moment_after, planned_after};

use hsr_frame::NoMemory;
use hsr_scenario::Order;
use hsr_world_steps::Step;
use std::alloc::Global;

/// A step that cuts or mends a link, by the link's number: its moment in microseconds, the greatest that any step
/// before it sets, 0 where none does; and how many sends, supervisions and ages stand before it.
#[derive(Clone, Copy, PartialEq, Eq)]
pub struct Change {
    pub link: usize,
    pub is_cut: bool,
    pub moment: u64,
    pub planned: usize,
}

/// What a step changes of a link, at a moment and behind `planned` sends, supervisions and ages.
fn change_by(moment: u64, planned: usize, order: &Order) -> Option<Change>
    ensures { result ≡ change_by moment planned order.now }
{
    match order {
        Order::Step(Step::Cut { link }) => Some(Change {
            link: *link,
            is_cut: true,
            moment,
            planned,
        }),
        Order::Step(Step::Mend { link }) => Some(Change {
            link: *link,
            is_cut: false,
            moment,
            planned,
        }),
        _ => None,
    }
}

/// The greatest moment that was set, behind a step.
pub(crate) fn moment_after(moment: u64, order: &Order) -> u64
    ensures { result ≡ moment_after moment order.now }
{
    match order {
        Order::Step(Step::Clock { at }) if moment < *at => *at,
        _ => moment,
    }
}

/// Whether a step is a send, a supervision or an age.
fn is_planned(order: &Order) -> bool
    ensures { result ≡ is_planned order.now }
{
    matches!(
        order,
        Order::Step(Step::Send { .. } | Step::Supervise { .. } | Step::Age { .. })
    )
}

/// How much is planned, with one more step.
pub(crate) fn planned_after(planned: usize, order: &Order) -> usize
    requires { planned + 1 < 2 ^ 64 }
    ensures { result ≡ planned_after planned order.now }
{
    if is_planned(order) {
        planned + 1
    } else {
        planned
    }
}

/// Puts a change last, if there is one.
fn push_if(list: &mut Vec<Change>, change: Option<Change>) -> Result<(), NoMemory>
    ensures { OnOk result (list.new.items ≡ list.old.items ++ option_to_list change) }
{
    if let Some(change) = change {
        list.push(change)?;
    }
    Ok(())
}

/// The changes of links that the steps of a scenario make, in their order. `NoMemory` if allocation fails.
pub(crate) fn changes_of(alloc: Global, orders: &[Order]) -> Result<Vec<Change>, NoMemory>
    ensures { IfOk result (λ list. list.items ≡ changes orders.now) }
{
    let mut list = Vec::new(alloc);
    let mut moment = 0;
    let mut planned = 0;
    let mut rest = orders;
    // What is left is a variable, since the loop's invariant speaks of it.
    while let Some((order, more)) = rest.split_first() {
        push_if(&mut list, change_by(moment, planned, order))?;
        moment = moment_after(moment, order);
        planned = planned_after(planned, order);
        rest = more;
    }
    Ok(list)
}
