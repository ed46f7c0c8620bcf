//! A scenario that runs in threads.
ghost use Rattle.std.specs.Prelude.{◌≡◌, Err, false, true, IfErr, IfOk, MatchOption, position};
ghost use Rattle.hsr_duptable.specs.Table.{IsTableSize};
ghost use Rattle.hsr_scenario.specs.Meaning.{scenario_view};
ghost use Rattle.hsr_runner.specs.Brought.{InjectsNothing, NoneIsAlien};
ghost use Rattle.hsr_runner.specs.Faults.{AllFit, IsRunFault, is_fine_step};
ghost use Rattle.hsr_runner.specs.Endings.{IsCheckFault, IsPlayFault};
ghost use Rattle.hsr_runner.specs.Plan.{is_fine};
ghost use Rattle.hsr_runner.specs.Runs.{IsRunOf, IsRunWith};
ghost use Rattle.hsr_runner.specs.declared.fault.RunFault.TheVariants.{FineStep, GateShut as Shut};

use crate::brought::unlike;
use crate::cells::Cells;
use crate::fault::RunFault;
use crate::gate::Gate;
use crate::plan::{first_fine, plan_of};
use crate::role::roles_of;
use crate::threads::play;
use hsr_finished_run::{CheckFault, Closed, Planned};
use hsr_link::Row;
use hsr_node::{Kept, Pass};
use hsr_scenario::Scenario;
use hsr_topology::Topology;
use std::alloc::Global;
use std::marker::Sync;
use std::sync::Wait;
use std::thread::Threads;

/// What the threads of a run left.
struct Left<const C: usize> {
    kept: Vec<Kept<C>>,
    rows: Vec<Vec<Row>>,
    passes: Vec<Pass>,
}

/// Runs a scenario in threads, but for the check.
fn run_unchecked<const C: usize, G: Gate, R: Threads + Wait + Sync>(
    rt: &R,
    alloc: Global,
    scenario: &Scenario,
    gate: &G,
) -> Result<Left<C>, RunFault>
    requires entries { IsTableSize C }
    ensures fits { IfOk result (λ left. AllFit scenario.now.topology scenario.now.steps.items) }
    ensures fault { IfErr result (λ fault.
        IsPlayFault C G.may_shut (scenario_view scenario.now) fault) }
{
    // Roles and cells are made before any thread is started, so that a failed allocation here starts none.
    let Ok(roles) = roles_of(alloc, &scenario.topology) else {
        return Err(RunFault::NoMemory);
    };
    let Ok(cells) = Cells::<C>::new(alloc, &scenario.topology, scenario.capacity) else {
        return Err(RunFault::NoMemory);
    };
    let passes = match play(rt, alloc, &cells, scenario, gate, roles.as_slice()) {
        Ok(passes) => passes,
        Err(fault) => return Err(fault),
    };
    match cells.left(alloc) {
        Ok((kept, rows)) => Ok(Left { kept, rows, passes }),
        Err(_refused) => Err(RunFault::NoMemory),
    }
}

/// The finished run that threads left, or why it is none.
fn checked<const C: usize>(
    alloc: Global,
    topology: Topology,
    plan: Vec<Planned>,
    left: Left<C>,
) -> Result<Closed<C>, RunFault>
    ensures ok { IfOk result (λ closed. IsRunWith C topology plan.items closed) }
    ensures err { IfErr result
        (λ fault. IsCheckFault C topology left.entry.kept.items left.entry.rows.items left.entry.passes.items plan.items fault) }
{
    let Left { kept, rows, passes } = left;
    match Closed::check(alloc, topology, plan, kept, rows, passes) {
        Ok(closed) => {
            // The clause of this call says that the run is finished, which the proof needs here.
            let _finished = closed.topology();
            Ok(closed)
        }
        Err((_parts, fault)) => match fault {
            CheckFault::NoMemory => Err(RunFault::NoMemory),
            CheckFault::Disagree(disagree) => Err(RunFault::Check(disagree)),
        },
    }
}

/// Runs a scenario in threads: a worker for each linked port takes, asks the gate, judges and puts; each node is aged when the
/// clock was set; the main worker, in the calling thread, asks the gate before each step of the scenario and does it, and at a drain
/// and at the end waits until no copy is in flight. Then all threads are joined, and what they left is checked. Duplicate tables have
/// `C` entries each.
///
/// Only a finished run is answered, of a scenario in which each step names a node or link that is there and none injects. In it each
/// entry is the main worker's, number 0, or an arrival of the worker of its port, `1 + 8 k + p` at port p of node k, or an age of the
/// node's ager, `8 + 8 k`. The first of these faults is: `FineStep` exactly where the scenario has a Put, Take or
/// Judge, with its lowest index, and then no thread was started; the main worker's own `Step`, `GateShut`, `Thread` or `NoMemory`;
/// that of the lowest worker that gave up, `GateShut`, `NoMemory` or `Step`; and `Check`. `GateShut` comes only where the type of the
/// gate may answer false. It waits for its threads and may not return; what is said of its answer is said if it does.
#[tactic(auto, using(crate::proofs::Endings::run_fault, crate::proofs::Endings::not_fine, crate::proofs::Endings::check_fault, crate::proofs::Endings::shuts, crate::proofs::Endings::unlike_fault))]
pub fn run_threads<const C: usize, G: Gate, R: Threads + Wait + Sync>(
    rt: &R,
    alloc: Global,
    scenario: &Scenario,
    gate: &G,
) -> Result<Closed<C>, RunFault>
    requires entries { IsTableSize C }
    ensures closed { IfOk result (λ closed. IsRunOf C (scenario_view scenario.now) closed) }
    ensures fits { IfOk result (λ closed. AllFit scenario.now.topology scenario.now.steps.items) }
    ensures injected { IfOk result (λ closed. InjectsNothing scenario.now.steps.items) }
    ensures brought { IfOk result (λ closed. NoneIsAlien closed.run) }
    ensures fine { MatchOption (position is_fine scenario.now.steps.items)
        (IfErr result (λ fault. is_fine_step fault ≡ false)) (λ k. result ≡ Err (FineStep k)) }
    ensures shut { result ≡ Err Shut → G.may_shut ≡ true }
    ensures fault { IfErr result (λ fault. IsRunFault C (scenario_view scenario.now) fault) }
{
    if let Some(step) = first_fine(scenario.steps.as_slice()) {
        return Err(RunFault::FineStep { step });
    }
    // The plan is told before the run, from the scenario alone: it is what the run is compared with.
    let Ok(plan) = plan_of(alloc, scenario.steps.as_slice()) else {
        return Err(RunFault::NoMemory);
    };
    let Ok(topology) = scenario.topology.copy() else {
        return Err(RunFault::NoMemory);
    };
    let closed = match run_unchecked(rt, alloc, scenario, gate) {
        Ok(left) => checked(alloc, topology, plan, left)?,
        Err(fault) => return Err(fault),
    };
    // What the closing check can't see is looked at behind it, at the price of one walk over the entries.
    match unlike(&closed, scenario.steps.as_slice()) {
        Some(disagree) => Err(RunFault::Check(disagree)),
        None => Ok(closed),
    }
}
