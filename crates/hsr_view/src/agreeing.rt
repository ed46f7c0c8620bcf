//! The steps of the scenario from which a run came.
ghost use Rattle.std.specs.Prelude.{◌≡◌, ◌≤◌, ◌↔◌, IfOk, IsTrue, count_by, option_map};
ghost use Rattle.hsr_scenario.specs.Fault.{is_memory};
ghost use Rattle.hsr_view.specs.Agreeing.{AreSteps, AreStepsBy, changes_link};

use hsr_finished_run::Planned;
use hsr_frame::NoMemory;
use hsr_runner::plan_of;
use hsr_scenario::{Order, What as Refused, read};
use hsr_world_steps::Step;
use std::alloc::Global;

// A run that is read in 16 MiB could have a million of them: the picture would be as long, and each is looked at beside each.
/// How often the steps of a scenario may change a link, so that a picture tells it.
const CHANGE_LIMIT: usize = 1000;

/// Whether a scenario isn't read since allocation failed.
pub(crate) fn is_memory(what: Refused) -> bool
    ensures { result ≡ is_memory what }
{
    matches!(what, Refused::NoMemory)
}

/// Whether the same is planned twice.
fn is_same(a: &Planned, b: &Planned) -> bool
    ensures { IsTrue result ↔ (a.now ≡ b.now) }
{
    a.node == b.node && a.at == b.at && a.event == b.event
}

/// Whether two plans are the same, one thing after the other.
fn are_same(a: &[Planned], b: &[Planned]) -> bool
    ensures { IsTrue result ↔ (a.now ≡ b.now) }
{
    // What is left is a variable, since the loop's invariant speaks of it.
    let mut left = b;
    for planned in a.iter() {
        let Some((other, more)) = left.split_first() else {
            return false;
        };
        if !is_same(planned, other) {
            return false;
        }
        left = more;
    }
    left.is_empty()
}

/// Whether an order cuts or mends a link.
fn changes_link(order: &Order) -> bool
    ensures { result ≡ changes_link order.now }
{
    matches!(order, Order::Step(Step::Cut { .. } | Step::Mend { .. }))
}

/// How many orders cut or mend a link.
fn change_count(orders: &[Order]) -> usize
    ensures { result ≡ count_by changes_link orders.now }
{
    orders.iter().filter(|order| changes_link(order)).count()
}

/// Steps, where they have this plan and don't change links too often; none otherwise.
fn steps_by(alloc: Global, plan: &[Planned], orders: Vec<Order>) -> Result<Vec<Order>, NoMemory>
    ensures { IfOk result (λ told. AreStepsBy plan.now orders.items told.items) }
{
    let planned = plan_of(alloc, orders.as_slice())?;
    let is_plan = are_same(planned.as_slice(), plan);
    if is_plan && change_count(orders.as_slice()) <= CHANGE_LIMIT {
        Ok(orders)
    } else {
        Ok(Vec::new(alloc))
    }
}

/// The steps of the scenario of a run, by the plan of the run; none without a scenario, or where it has steps that
/// aren't read, another plan, or more than `CHANGE_LIMIT` cuts and mends.
pub(crate) fn steps_of(
    alloc: Global,
    plan: &[Planned],
    scenario: Option<&str>,
) -> Result<Vec<Order>, NoMemory>
    ensures { IfOk result (λ told.
        AreSteps plan.now (option_map (λ s. s.now) scenario.entry) told.items) }
{
    let Some(text) = scenario else {
        return Ok(Vec::new(alloc));
    };
    match read(alloc, text) {
        Ok(scenario) => steps_by(alloc, plan, scenario.steps),
        Err(fault) => {
            if is_memory(fault.what) {
                Err(NoMemory)
            } else {
                Ok(Vec::new(alloc))
            }
        }
    }
}
