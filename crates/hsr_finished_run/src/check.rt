//! Whether the parts of a run agree.
ghost use Rattle.std.specs.Prelude.{◌≡◌, length, map, IfNone, IfOk, IfSome, MatchOption};
ghost use Rattle.hsr_node.specs.Kept.{Record};
ghost use Rattle.hsr_finished_run.specs.Checked.{Agrees, HasNoStorm, HasNoStranger, IfDisagree, IsFirst, IsFirstOfAll, IsFirstStranger, IsSettledRun};
ghost use Rattle.hsr_finished_run.specs.Finished.{IsFinished, run_of};
ghost use Rattle.hsr_finished_run.specs.Shape.{HasShape, IsShaped};
ghost use Rattle.hsr_topology.specs.Wired.{IsWired};
ghost use Rattle.hsr_finished_run.specs.OfRecords.{AllAgreeOf, IsClosedOf, IsFirstOf, IsOpenOf};

use crate::disagree::{CheckFault, Disagree};
use crate::links_agree::{first_noisy, first_other};
use crate::parts::Parts;
use crate::planned::Planned;
use crate::shape::{are_legal, is_shaped};
use crate::strangers::first_stranger;
use crate::told::is_told;
use crate::workers::first_wrong;
use hsr_frame::NoMemory;
use hsr_link::Row;
use hsr_node::{Kept, Pass};
use hsr_run_index::{Ends, Numbers, Passage};
use hsr_topology::Topology;
use std::alloc::Global;

/// The first row that no node put, or whose copy is of no send, by the numbers that the nodes gave.
fn first_unknown<const C: usize>(
    alloc: Global,
    topology: &Topology,
    ends: &Ends<'_>,
    kept: &[Kept<C>],
    rows: &[Vec<Row>],
) -> Result<Option<(usize, usize)>, NoMemory>
    requires links { ends.now ≡ topology.now.links }
    requires shaped { IsShaped topology.now kept.now rows.now }
    ensures { IfOk result (λ r.
        MatchOption r (HasNoStranger (run_of C topology.now kept.now rows.now)
        (length topology.now.links)) (λ f.
        IsFirstStranger (run_of C topology.now kept.now rows.now) f.0 f.1)) }
{
    let numbers = Numbers::new(alloc, kept)?;
    Ok(first_stranger(topology, ends, &numbers, rows))
}

/// The same of tables, records and rows that have their shape, by the ends of the topology's links.
#[tactic(auto, using(crate::proofs::Agreed::settled), unfolding(crate::specs::Checked::IsFirstOfAll))]
fn unsettled_in<const C: usize>(
    alloc: Global,
    topology: &Topology,
    ends: &Ends<'_>,
    kept: &[Kept<C>],
    rows: &[Vec<Row>],
) -> Result<Option<Disagree>, NoMemory>
    requires links { ends.now ≡ topology.now.links }
    requires wired { IsWired topology.now.places topology.now.links }
    requires shaped { HasShape C topology.now kept.now rows.now }
    ensures { IfOk result (λ r. MatchOption r (IsSettledRun C topology.now kept.now rows.now) (λ d.
        IsFirstOfAll C topology.now kept.now rows.now d)) }
{
    // It does nothing when it runs: its contract tells the proof that records are legal.
    are_legal(kept);
    // What is looked at first is named first (RULES, Finished runs).
    if let Some((link, dir)) = first_other(alloc, Passage::Put, topology, kept, rows)? {
        return Ok(Some(Disagree::LinkPut { link, dir }));
    }
    if let Some((link, dir)) = first_other(alloc, Passage::Taken, topology, kept, rows)? {
        return Ok(Some(Disagree::LinkTaken { link, dir }));
    }
    if let Some((link, row)) = first_unknown(alloc, topology, ends, kept, rows)? {
        return Ok(Some(Disagree::Stranger { link, row }));
    }
    match first_noisy(topology, kept, rows) {
        Some(link) => Ok(Some(Disagree::NotQuiet { link })),
        None => Ok(None),
    }
}

/// The first thing that keeps records and rows from being a closed run of the topology, whatever the receipts are.
#[tactic(auto, unfolding(crate::specs::Checked::IsFirstOfAll))]
fn unsettled<const C: usize>(
    alloc: Global,
    topology: &Topology,
    kept: &[Kept<C>],
    rows: &[Vec<Row>],
) -> Result<Option<Disagree>, NoMemory>
    ensures { IfOk result (λ r. MatchOption r (IsSettledRun C topology.now kept.now rows.now) (λ d.
        IsFirstOfAll C topology.now kept.now rows.now d)) }
{
    let ends = Ends::new(alloc, topology.links())?;
    if is_shaped(topology, &ends, kept, rows) {
        unsettled_in(alloc, topology, &ends, kept, rows)
    } else {
        Ok(Some(Disagree::Shape))
    }
}

/// The first thing in which the parts of a run don't agree, if there is one.
#[tactic(auto, using(crate::proofs::Agreed::agrees, crate::proofs::Agreed::any_first, crate::proofs::Agreed::receipts_first))]
fn disagreement<const C: usize>(
    alloc: Global,
    topology: &Topology,
    kept: &[Kept<C>],
    rows: &[Vec<Row>],
    passes: &[Pass],
    plan: &[Planned],
) -> Result<Option<Disagree>, NoMemory>
    ensures first { IfOk result (λ r.
        MatchOption r (Agrees C topology.now kept.now rows.now passes.now plan.now) (λ d.
        IsFirst C topology.now kept.now rows.now passes.now plan.now d)) }
{
    match unsettled(alloc, topology, kept, rows) {
        Err(fault) => return Err(fault),
        Ok(Some(disagree)) => return Ok(Some(disagree)),
        Ok(None) => {}
    }
    match first_wrong(alloc, kept, passes, plan) {
        Err(fault) => Err(fault),
        Ok(Some(worker)) => Ok(Some(Disagree::Receipts { worker })),
        Ok(None) => Ok(None),
    }
}

/// The first thing in which records and rows don't agree with the passes that records and plan tell, if there is one. Those
/// of all but the main worker are right as they are told.
#[tactic(auto, using(crate::proofs::OfRecords::agree, crate::proofs::OfRecords::first_of, crate::proofs::OfRecords::plan_first))]
fn disagreement_of<const C: usize>(
    alloc: Global,
    topology: &Topology,
    kept: &[Kept<C>],
    rows: &[Vec<Row>],
    plan: &[Planned],
) -> Result<Option<Disagree>, NoMemory>
    ensures first { IfOk result (λ r.
        MatchOption r (AllAgreeOf C topology.now kept.now rows.now plan.now) (λ d.
        IsFirstOf C topology.now kept.now rows.now plan.now d)) }
{
    match unsettled(alloc, topology, kept, rows) {
        Err(fault) => return Err(fault),
        Ok(Some(disagree)) => return Ok(Some(disagree)),
        Ok(None) => {}
    }
    if is_told(alloc, kept, plan)? {
        Ok(None)
    } else {
        Ok(Some(Disagree::Receipts { worker: 0 }))
    }
}

/// Why the parts of a run don't agree, if they don't. Parts that agree make a finished run, in which no direction of a link
/// carried two copies of one send.
#[tactic(auto, using(crate::proofs::Agreed::calm, crate::proofs::Agreed::finished, crate::proofs::Agreed::refused))]
pub(crate) fn fault_of<const C: usize>(
    alloc: Global,
    topology: &Topology,
    kept: &[Kept<C>],
    rows: &[Vec<Row>],
    passes: &[Pass],
    plan: &[Planned],
) -> Option<CheckFault>
    ensures none { IfNone result (Agrees C topology.now kept.now rows.now passes.now plan.now) }
    ensures finished { IfNone result ((map (λ (r : Record). r.place) kept.now ≡ topology.now.places)
        × IsFinished (record { run = run_of C topology.now kept.now rows.now; plan = plan.now })) }
    ensures calm { IfNone result (HasNoStorm (run_of C topology.now kept.now rows.now)) }
    ensures first { IfSome result (λ fault.
        IfDisagree fault (IsFirst C topology.now kept.now rows.now passes.now plan.now)) }
    ensures refused { IfSome result (λ fault. IfDisagree fault (λ d.
        ¬ Agrees C topology.now kept.now rows.now passes.now plan.now)) }
{
    // What it answers isn't used: its contract says that links are wired as a topology's.
    let _ = topology.places();
    match disagreement(alloc, topology, kept, rows, passes, plan) {
        Err(NoMemory) => Some(CheckFault::NoMemory),
        Ok(Some(disagree)) => Some(CheckFault::Disagree(disagree)),
        Ok(None) => None,
    }
}

/// Why records and rows aren't a closed run with the passes that records and plan tell, if they aren't.
#[tactic(auto, using(crate::proofs::OfRecords::calm_of, crate::proofs::OfRecords::closed_of, crate::proofs::OfRecords::open_of))]
pub(crate) fn fault_of_records<const C: usize>(
    alloc: Global,
    topology: &Topology,
    kept: &[Kept<C>],
    rows: &[Vec<Row>],
    plan: &[Planned],
) -> Option<CheckFault>
    ensures closed { IfNone result (IsClosedOf C topology.now kept.now rows.now plan.now
        (record { run = run_of C topology.now kept.now rows.now; plan = plan.now })) }
    ensures finished { IfNone result ((map (λ (r : Record). r.place) kept.now ≡ topology.now.places)
        × IsFinished (record { run = run_of C topology.now kept.now rows.now; plan = plan.now })) }
    ensures calm { IfNone result (HasNoStorm (run_of C topology.now kept.now rows.now)) }
    ensures open { IfSome result (λ fault.
        IfDisagree fault (IsOpenOf C topology.now kept.now rows.now plan.now)) }
{
    // As above: its contract says that links are wired as a topology's.
    let _ = topology.places();
    match disagreement_of(alloc, topology, kept, rows, plan) {
        Err(NoMemory) => Some(CheckFault::NoMemory),
        Ok(Some(disagree)) => Some(CheckFault::Disagree(disagree)),
        Ok(None) => None,
    }
}
