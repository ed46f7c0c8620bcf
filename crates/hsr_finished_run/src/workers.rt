//! The first worker whose receipts are wrong.
ghost use Rattle.std.specs.Prelude.{◌≡◌, ◌<◌, ◌↔◌, ◌++◌, ◌∷◌, IfOk, IfSome, IsTrue, MatchOption, map};
ghost use Rattle.hsr_finished_run.specs.Receipts.{HasReceipts, IsFirstWrong, done_in, done_of, planned_of};
ghost use Rattle.hsr_finished_run.specs.Workers.{most_in, most_kept, most_passed, most_worker};

use crate::planned::Planned;
use crate::reached::{first_lost, reached_by};
use hsr_frame::NoMemory;
use hsr_node::{Entry, Kept, Pass, Receipt};
use std::alloc::Global;

fn most_in(entries: &[Entry]) -> u16
    ensures { result ≡ most_in entries.now }
{
    let mut most = 0u16;
    // The index is used by the loop's invariant alone.
    for (i, entry) in entries.iter().enumerate() {
        most = if most < entry.worker {
            entry.worker
        } else {
            most
        };
    }
    most
}

fn most_kept<const C: usize>(kept: &[Kept<C>]) -> u16
    ensures { result ≡ most_kept kept.now }
{
    let mut most = 0u16;
    // The index is used by the loop's invariant alone.
    for (i, record) in kept.iter().enumerate() {
        let here = most_in(record.entries());
        most = if most < here { here } else { most };
    }
    most
}

fn most_passed(passes: &[Pass]) -> u16
    ensures { result ≡ most_passed passes.now }
{
    let mut most = 0u16;
    // The index is used by the loop's invariant alone.
    for (i, pass) in passes.iter().enumerate() {
        let here = pass.worker();
        most = if most < here { here } else { most };
    }
    most
}

/// The highest worker that has an entry or a pass.
fn most_worker<const C: usize>(kept: &[Kept<C>], passes: &[Pass]) -> u16
    ensures { result ≡ most_worker kept.now passes.now }
{
    let of_kept = most_kept(kept);
    let of_passes = most_passed(passes);
    if of_kept < of_passes {
        of_passes
    } else {
        of_kept
    }
}

/// Whether a receipt is what was planned.
fn is_planned(receipt: &Receipt, planned: &Planned) -> bool
    ensures { IsTrue result ↔ (planned_of receipt.now ≡ planned.now) }
{
    receipt.node == planned.node
        && receipt.entry.at == planned.at
        && receipt.entry.event == planned.event
}

/// What is left of a plan after these receipts, if it begins with them.
fn after_receipts<'a>(receipts: &[Receipt], plan: &'a [Planned]) -> Option<&'a [Planned]>
    ensures { MatchOption result ((rest : List Planned) → map planned_of receipts.now ++ rest
        ≡ plan.now → ⊥) (λ left. (rest : List Planned) → (rest ≡ left.now)
        ↔ (map planned_of receipts.now ++ rest ≡ plan.now)) }
{
    let mut left = plan;
    // The index is used by the loop's invariant alone.
    for (i, receipt) in receipts.iter().enumerate() {
        let Some((planned, more)) = left.split_first() else {
            return None;
        };
        if !is_planned(receipt, planned) {
            return None;
        }
        left = more;
    }
    Some(left)
}

ghost use Rattle.std.specs.Prelude.{List};
ghost use Rattle.hsr_finished_run.specs.declared.planned.Planned.{Planned};

/// What is left of a plan after a pass, if it begins with what the main worker did in it.
fn after_pass<'a>(pass: &Pass, plan: &'a [Planned]) -> Option<&'a [Planned]>
    ensures { MatchOption result ((rest : List Planned) → done_in pass.now ++ rest ≡ plan.now
        → ⊥) (λ left. (rest : List Planned) → (rest ≡ left.now)
        ↔ (done_in pass.now ++ rest ≡ plan.now)) }
{
    // The plan is the main worker's alone.
    if pass.worker() == 0 {
        after_receipts(pass.receipts(), plan)
    } else {
        Some(plan)
    }
}

/// Whether what the main worker did, one pass after another, is the plan.
fn is_plan(passes: &[Pass], plan: &[Planned]) -> bool
    ensures { IsTrue result ↔ (done_of passes.now ≡ plan.now) }
{
    let mut left = plan;
    // The index is used by the loop's invariant alone.
    for (i, pass) in passes.iter().enumerate() {
        let Some(more) = after_pass(pass, left) else {
            return false;
        };
        left = more;
    }
    left.is_empty()
}

/// The lowest worker whose receipts aren't its entries, or aren't the plan.
#[tactic(auto, using(crate::proofs::Idle::not_planned))]
pub(crate) fn first_wrong<const C: usize>(
    alloc: Global,
    kept: &[Kept<C>],
    passes: &[Pass],
    plan: &[Planned],
) -> Result<Option<u16>, NoMemory>
    ensures { IfOk result (λ r. MatchOption r (HasReceipts kept.now passes.now plan.now) (λ worker.
        IsFirstWrong kept.now passes.now plan.now worker)) }
{
    if !is_plan(passes, plan) {
        // The plan is the main worker's, and its number is the lowest.
        return Ok(Some(0));
    }
    let reached = reached_by(alloc, kept, passes, most_worker(kept, passes))?;
    Ok(first_lost(reached.as_slice()))
}
