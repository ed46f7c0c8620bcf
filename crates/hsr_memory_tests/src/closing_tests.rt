//! The check of a run that is handed in in parts, and the passes of its record: one node without a link, which sent a frame. What
//! can't be had is left empty, and then the parts don't agree.
use crate::fixtures::{danh, send_event};
use hsr_finished_run::{CheckFault, Closed, Parts, Planned, passes_of};
use hsr_node::{Kept, Pass};
use hsr_topology::Topology;
use std::alloc::Global;
use std::test::Fail;

/// The node, before it did anything.
fn silent(alloc: Global) -> Option<Vec<Kept<4>>> {
    let kept = Kept::new(alloc, 0, danh(1)).ok()?;
    vec![in alloc; kept].ok()
}

/// Lets the node send.
fn send_by(kept: &mut Kept<4>, alloc: Global) -> Option<()> {
    let event = send_event(alloc)?;
    kept.enter(0, 0, event).ok().map(|_answer| ())
}

fn sender_once(alloc: Global) -> Option<Vec<Kept<4>>> {
    let mut kept = silent(alloc)?;
    send_by(kept.as_mut_slice().first_mut()?, alloc)?;
    Some(kept)
}

/// The node, which sent a frame.
fn sender(alloc: Global) -> Vec<Kept<4>> {
    match sender_once(alloc) {
        Some(kept) => kept,
        None => sender_once(alloc).unwrap_or(Vec::new(alloc)),
    }
}

fn plan_once(alloc: Global) -> Option<Vec<Planned>> {
    let send = Planned {
        node: 0,
        at: 0,
        event: send_event(alloc)?,
    };
    vec![in alloc; send].ok()
}

/// The plan that it sends that frame.
fn plan(alloc: Global) -> Vec<Planned> {
    match plan_once(alloc) {
        Some(plan) => plan,
        None => plan_once(alloc).unwrap_or(Vec::new(alloc)),
    }
}

/// The passes of its record.
fn passes(alloc: Global, kept: &[Kept<4>], plan: &[Planned]) -> Vec<Pass> {
    match passes_of(alloc, kept, plan) {
        Ok(passes) => passes,
        Err(_refused) => passes_of(alloc, kept, plan).unwrap_or(Vec::new(alloc)),
    }
}

/// One node, and no links.
fn alone(alloc: Global) -> Result<Topology, Fail> {
    let places = match vec![in alloc; danh(1)] {
        Ok(places) => places,
        Err(_refused) => vec![in alloc; danh(1)]?,
    };
    Ok(
        Topology::new(places, Vec::new(alloc))
            .ok()
            .ok_or("topology")?,
    )
}

/// All parts of the run.
fn parts(alloc: Global, topology: Topology) -> Parts<4> {
    let kept = sender(alloc);
    let plan = plan(alloc);
    let passes = passes(alloc, kept.as_slice(), plan.as_slice());
    Parts {
        topology,
        plan,
        kept,
        rows: Vec::new(alloc),
        passes,
    }
}

/// Whether one worker was answered once.
fn has_one_answer(passes: &[Pass]) -> bool {
    passes.iter().map(|pass| pass.receipts().len()).eq([1])
}

fn checked(alloc: Global, parts: Parts<4>) -> Result<Closed<4>, (Parts<4>, CheckFault)> {
    let (topology, plan, kept) = (parts.topology, parts.plan, parts.kept);
    Closed::check(alloc, topology, plan, kept, parts.rows, parts.passes)
}

/// How many sends the plan of the finished run has. The parts come back if allocation fails, and are checked again.
fn planned_of(alloc: Global, parts: Parts<4>) -> usize {
    match checked(alloc, parts) {
        Ok(closed) => closed.plan().len(),
        Err((parts, CheckFault::NoMemory)) => match checked(alloc, parts) {
            Ok(closed) => closed.plan().len(),
            Err(_refused) => 0,
        },
        Err(_other) => 0,
    }
}

#[test]
fn passes_and_check(rt: HostRuntime) -> Result<(), Fail> {
    let parts = parts(rt.alloc(), alone(rt.alloc())?);
    assert!(rt; has_one_answer(parts.passes.as_slice()));
    assert!(rt; planned_of(rt.alloc(), parts) == 1);
    Ok(())
}
