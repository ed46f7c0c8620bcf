//! Why what a plan means has no finished run, in words.
ghost use Rattle.std.specs.Prelude.{IsOk};
ghost use Rattle.hsr_plan_scenario.specs.Runs.{IsKnownRun};

use hsr_frame::NoMemory;
use hsr_plan_scenario::{Line, words};
use hsr_ring::Unfinished;
use hsr_scenario_fault::words_of_step;
use hsr_text::{put, put_number};
use std::alloc::Global;

/// The line of a run that stops at a step of the plan's scenario, counted from 0, for this cause.
fn stopped(alloc: Global, step: usize, why: &str) -> Line {
    let mut line = words(alloc, "fault: plan 1:1 its run stops at step ")?;
    put_number(&mut line, step as u64)?;
    put(&mut line, " of its scenario: ")?;
    put(&mut line, why)?;
    Ok(line)
}

/// The line of what is meant that leads to no finished run; there is none if allocation failed.
pub(crate) fn line_of_run(alloc: Global, fault: &Unfinished) -> Line
    ensures { IsOk result → IsKnownRun fault.now }
{
    match fault {
        Unfinished::Step(index, fault) => stopped(alloc, *index, words_of_step(fault)),
        Unfinished::Check(_) => words(alloc, "fault: plan 1:1 copies are left behind its end"),
        Unfinished::Memory => Err(NoMemory),
    }
}
