//! A plan's run, counted.
ghost use Rattle.std.specs.Prelude.{◌≡◌, IfErr, IfOk};
ghost use Rattle.hsr_plan_scenario.specs.Runs.{HasNoRun, IsKnownRun};
ghost use Rattle.hsr_plan_sweep.specs.Refusals.{IsKnown, IsUncounted};
ghost use Rattle.hsr_plan_sweep.specs.Runs.{IsCountOf, IsCountOfMeaning, IsCountedOf};

use crate::audience::Audience;
use crate::counting::{Count, counted};
use crate::sendings::streams_of;
use hsr_finished_run::Closed;
use hsr_frame::NoMemory;
use hsr_plan_scenario::{Trouble as PlanTrouble, moved, run_meant};
use hsr_plan_schedule::Meaning;
use hsr_plan_text::Plan;
use hsr_ring::Unfinished;
use std::alloc::Global;

/// How many entries the tables have.
const TABLE: usize = 512;

/// Why nothing is counted.
#[derive(Drop)]
pub(crate) enum Trouble {
    /// The plan means nothing.
    Plan(PlanTrouble),
    /// What it means leads to no finished run.
    Run(Unfinished),
    /// Allocation failed.
    Memory,
}

/// The trouble where orders lead to no finished run.
fn trouble_of(fault: Unfinished) -> Trouble
    ensures { IsKnown result → IsKnownRun fault }
{
    match fault {
        Unfinished::Memory => Trouble::Memory,
        Unfinished::Check(_) | Unfinished::Step(_, _) => Trouble::Run(fault),
    }
}

/// The count of a finished run of what a plan means.
fn count_run(
    alloc: Global,
    plan: &Plan,
    meaning: &Meaning,
    closed: &Closed<TABLE>,
) -> Result<Count, NoMemory>
    ensures { IfOk result (λ count. IsCountedOf plan.now meaning.now closed.now.run count) }
{
    let audience = Audience {
        nodes: meaning.nodes.as_slice(),
        streams: plan.streams.as_slice(),
        events: plan.events.as_slice(),
    };
    let streams = streams_of(
        alloc,
        meaning.sends.as_slice(),
        meaning.orders.as_slice(),
        closed.topology().places().len(),
    )?;
    counted(alloc, closed, &audience, streams.as_slice())
}

/// The count of a run of what a plan means.
fn count_of_meaning(alloc: Global, plan: &Plan, meaning: &Meaning) -> Result<Count, Trouble>
    ensures count { IfOk result (λ count. IsCountOfMeaning plan.now meaning.now count) }
    ensures none { IfErr result (λ trouble. IsKnown trouble → HasNoRun 512 meaning.now) }
{
    match run_meant::<TABLE>(alloc, meaning) {
        Ok(closed) => match count_run(alloc, plan, meaning, &closed) {
            Ok(count) => Ok(count),
            Err(_) => Err(Trouble::Memory),
        },
        Err(fault) => Err(trouble_of(fault)),
    }
}

/// The count of a plan's run.
pub(crate) fn count_of(alloc: Global, plan: &Plan) -> Result<Count, Trouble>
    ensures count { IfOk result (λ count. IsCountOf plan.now count) }
    ensures none { IfErr result (λ trouble. IsKnown trouble → IsUncounted plan.now) }
{
    match moved::<TABLE>(alloc, plan) {
        Ok(meaning) => count_of_meaning(alloc, plan, &meaning),
        Err(fault) => Err(Trouble::Plan(fault)),
    }
}
