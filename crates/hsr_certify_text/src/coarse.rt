//! A scenario without its own moves of copies.
ghost use Rattle.std.specs.Prelude.{◌≡◌, not, OnOk};
ghost use Rattle.hsr_plays.specs.Conditions.{is_fine};
ghost use Rattle.hsr_certify_text.specs.Coarse.{coarse};

use hsr_frame::NoMemory;
use hsr_scenario::Order;
use hsr_world_steps::Step;

/// Whether a step moves no copy, and injects nothing.
fn is_coarse(order: &Order) -> bool
    ensures { result ≡ not (is_fine order.now) }
{
    !matches!(
        order,
        Order::Step(Step::Put { .. } | Step::Take { .. } | Step::Judge { .. } | Step::Inject { .. })
    )
}

/// Leaves out the steps of a scenario that move a copy or inject one, and adds a drain behind the others: what it asks for, in whatever
/// order copies move. `NoMemory` if allocation fails; the drain isn't there then.
pub fn make_coarse(orders: &mut Vec<Order>) -> Result<(), NoMemory>
    ensures { OnOk result (orders.new.items ≡ coarse orders.old.items) }
{
    orders.retain(|order| is_coarse(order));
    orders.push(Order::Drain)?;
    Ok(())
}
