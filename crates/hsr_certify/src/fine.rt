//! Whether a step asks for a send, steps that move copies themselves, and spans that don't end.
ghost use Rattle.std.specs.Prelude.{◌≡◌, not};
ghost use Rattle.std.specs.List.{list_any};
ghost use Rattle.hsr_plays.specs.Conditions.{is_fine};
ghost use Rattle.hsr_plays.specs.Law.{is_send};
ghost use Rattle.hsr_certify.specs.Firsts.{first_send, first_step};
ghost use Rattle.hsr_certify.specs.Tests.{is_coarse, is_ended};

use hsr_plays::SendSpan;
use hsr_scenario::Order;
use hsr_world_steps::Step;

/// Whether a step asks for a send.
fn is_send(order: &Order) -> bool
    ensures { result ≡ is_send order.now }
{
    matches!(
        order,
        Order::Step(Step::Send { .. } | Step::Supervise { .. })
    )
}

/// Whether one of these steps asks for a send.
pub(crate) fn has_send(orders: &[Order]) -> bool
    ensures { result ≡ list_any is_send orders.now }
{
    orders.iter().any(|order| is_send(order))
}

/// Whether a step moves no copy, and injects nothing.
fn is_coarse(order: &Order) -> bool
    ensures { result ≡ not (is_fine order.now) }
{
    !matches!(
        order,
        Order::Step(Step::Put { .. } | Step::Take { .. } | Step::Judge { .. } | Step::Inject { .. })
    )
}

/// The first step that moves a copy, or injects one.
pub(crate) fn first_fine(orders: &[Order]) -> Option<usize>
    ensures { result ≡ first_step is_coarse 0 orders.now }
{
    for (i, order) in orders.iter().enumerate() {
        if !is_coarse(order) {
            return Some(i);
        }
    }
    None
}

/// The first send whose span ends with none of so many steps.
pub(crate) fn first_unended(steps: usize, spans: &[SendSpan]) -> Option<usize>
    ensures { result ≡ first_send (is_ended steps) spans.now }
{
    // The index is used by the loop's invariant alone.
    for (i, span) in spans.iter().enumerate() {
        if span.end >= steps {
            return Some(span.index);
        }
    }
    None
}
