//! What a scenario's main worker brings about.
ghost use Rattle.std.specs.Prelude.{◌≡◌, IfOk, position};
ghost use Rattle.hsr_runner.specs.Plan.{clock_after, is_fine, plan_of, planned_at};

use hsr_finished_run::Planned;
use hsr_frame::NoMemory;
use hsr_node::Event;
use hsr_scenario::Order;
use hsr_world_steps::Step;
use std::alloc::Global;

/// Whether an order is a Put, Take or Judge, which workers do by themselves.
fn is_fine(order: &Order) -> bool
    ensures { result ≡ is_fine order.now }
{
    match order {
        Order::Step(step) => matches!(
            step,
            Step::Put { .. } | Step::Take { .. } | Step::Judge { .. }
        ),
        Order::Drain => false,
    }
}

/// The lowest index of a Put, Take or Judge.
pub fn first_fine(orders: &[Order]) -> Option<usize>
    ensures { result ≡ position is_fine orders.now }
{
    orders.iter().position(|order| is_fine(order))
}

/// What an order brings about at a moment.
pub(crate) fn planned_at(at: u64, order: &Order) -> Result<Option<Planned>, NoMemory>
    ensures { IfOk result (λ p. p ≡ planned_at at order.now) }
{
    let Order::Step(step) = order else {
        return Ok(None);
    };
    match step {
        Step::Send {
            node,
            from,
            dst,
            vlan,
            kind: ethertype,
            payload,
        } => Ok(Some(Planned {
            node: *node,
            at,
            event: Event::Send {
                from: *from,
                dst: *dst,
                vlan: *vlan,
                kind: *ethertype,
                // A copy, since the scenario keeps its own.
                payload: payload.clone()?,
            },
        })),
        Step::Supervise { node, about } => Ok(Some(Planned {
            node: *node,
            at,
            event: Event::Supervise(*about),
        })),
        Step::Age { node } => Ok(Some(Planned {
            node: *node,
            at,
            event: Event::Age,
        })),
        // Each kind is named, so that a new one is not left out of the plan unseen.
        Step::Clock { .. }
        | Step::Put { .. }
        | Step::Take { .. }
        | Step::Judge { .. }
        | Step::Cut { .. }
        | Step::Mend { .. }
        | Step::Inject { .. } => Ok(None),
    }
}

/// The moment after an order.
pub(crate) fn clock_after(at: u64, order: &Order) -> u64
    ensures { result ≡ clock_after at order.now }
{
    match order {
        Order::Step(Step::Clock { at: now }) => *now,
        _ => at,
    }
}

/// The sends, supervisions and ages of a scenario in order, each with the moment of the last clock step before it, 0 at first.
/// `NoMemory` if allocation fails.
pub fn plan_of(alloc: Global, orders: &[Order]) -> Result<Vec<Planned>, NoMemory>
    ensures { IfOk result (λ plan. plan.items ≡ plan_of orders.now) }
{
    let mut plan = Vec::new(alloc);
    let mut at = 0;
    let mut rest = orders;
    // The rest is a variable, since the loop's invariant speaks of the moment before it.
    while let Some((order, more)) = rest.split_first() {
        if let Some(planned) = planned_at(at, order)? {
            plan.push(planned)?;
        }
        at = clock_after(at, order);
        rest = more;
    }
    Ok(plan)
}
