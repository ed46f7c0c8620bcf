//! The passes that records and a plan tell of.
ghost use Rattle.std.specs.Prelude.{◌≡◌, ◌<◌, ◌+◌, ◌++◌, [], ◌∷◌, ℕ, length, max, IfOk, OnOk};
ghost use Rattle.hsr_finished_run.specs.Passes.{AreByPlan, AreByWorker, AreMain, IsKeptNext, IsLeft, IsOver, IsToldBy, other_in, others_in, others_of, receipts_of};
ghost use Rattle.hsr_finished_run.specs.Receipts.{HasReceipts};
ghost use Rattle.hsr_finished_run.specs.Workers.{most_in, most_kept};

use crate::next::{first_places, next_place};
use crate::planned::Planned;
use hsr_frame::NoMemory;
use hsr_node::{Entry, Kept, Pass, Receipt};
use std::alloc::Global;

/// The receipt of an entry that stands at a place of a node.
fn receipt_of(node: usize, place: usize, entry: &Entry) -> Result<Receipt, NoMemory>
    ensures { IfOk result (λ receipt. receipt
        ≡ record { node = node; place = place; entry = entry.now }) }
{
    let entry = Entry {
        worker: entry.worker,
        at: entry.at,
        event: entry.event.copy()?,
        outcome: entry.outcome,
    };
    Ok(Receipt { node, place, entry })
}

fn add_pass(passes: &mut Vec<Pass>, pass: Pass) -> Result<(), NoMemory>
    ensures { OnOk result (passes.new.items ≡ passes.old.items ++ pass ∷ []) }
{
    passes.push(pass)?;
    Ok(())
}

fn add_receipt(pass: &mut Pass, receipt: Receipt) -> Result<(), NoMemory>
    ensures { OnOk result (pass.new
        ≡ record pass.old { receipts = pass.old.receipts ++ receipt ∷ [] }) }
{
    match pass.keep(receipt) {
        Ok(()) => Ok(()),
        Err(_) => Err(NoMemory),
    }
}

/// Puts passes without receipts last until a worker has one.
fn add_passes(alloc: Global, passes: &mut Vec<Pass>, worker: u16) -> Result<(), NoMemory>
    requires { AreByWorker 0 passes.old.items }
    ensures workers { OnOk result (AreByWorker 0 passes.new.items) }
    ensures count { OnOk result (length passes.new.items ≡ max (length passes.old.items)
        (worker + 1)) }
    ensures receipts { OnOk result ((w : ℕ) → receipts_of w passes.new.items
        ≡ receipts_of w passes.old.items) }
{
    for number in passes.len()..usize::from(worker) + 1 {
        add_pass(passes, Pass::new(alloc, number as u16))?;
    }
    Ok(())
}

/// Puts the receipt of an entry last in its worker's pass, if that isn't the main worker.
fn add_other(
    alloc: Global,
    passes: &mut Vec<Pass>,
    node: usize,
    place: usize,
    entry: &Entry,
) -> Result<(), NoMemory>
    requires workers { AreByWorker 0 passes.old.items }
    requires main { 0 < length passes.old.items }
    ensures workers { OnOk result (AreByWorker 0 passes.new.items) }
    ensures count { OnOk result (length passes.new.items ≡ max (length passes.old.items)
        (entry.now.worker + 1)) }
    ensures receipts { OnOk result ((w : ℕ) → receipts_of w passes.new.items
        ≡ receipts_of w passes.old.items ++ other_in w node place entry.now) }
{
    let worker = entry.worker;
    // The main worker's receipts stand in the order of the plan, and were put before.
    if worker == 0 {
        return Ok(());
    }
    add_passes(alloc, passes, worker)?;
    let receipt = receipt_of(node, place, entry)?;
    add_receipt(&mut passes[usize::from(worker)], receipt)
}

/// Puts the receipts of a record's entries last in the passes of their workers.
fn add_others_in(
    alloc: Global,
    passes: &mut Vec<Pass>,
    node: usize,
    entries: &[Entry],
) -> Result<(), NoMemory>
    requires workers { AreByWorker 0 passes.old.items }
    requires main { 0 < length passes.old.items }
    ensures workers { OnOk result (AreByWorker 0 passes.new.items) }
    ensures count { OnOk result (length passes.new.items ≡ max (length passes.old.items)
        (most_in entries.now + 1)) }
    ensures receipts { OnOk result ((w : ℕ) → receipts_of w passes.new.items
        ≡ receipts_of w passes.old.items ++ others_in w node 0 entries.now) }
{
    for (place, entry) in entries.iter().enumerate() {
        add_other(alloc, passes, node, place, entry)?;
    }
    Ok(())
}

/// Puts those of all records there, in node and place order.
fn add_others<const C: usize>(
    alloc: Global,
    passes: &mut Vec<Pass>,
    kept: &[Kept<C>],
) -> Result<(), NoMemory>
    requires workers { AreByWorker 0 passes.old.items }
    requires main { 0 < length passes.old.items }
    ensures workers { OnOk result (AreByWorker 0 passes.new.items) }
    ensures count { OnOk result (length passes.new.items ≡ max (length passes.old.items)
        (most_kept kept.now + 1)) }
    ensures receipts { OnOk result ((w : ℕ) → receipts_of w passes.new.items
        ≡ receipts_of w passes.old.items ++ others_of w 0 kept.now) }
{
    for (node, record) in kept.iter().enumerate() {
        add_others_in(alloc, passes, node, record.entries())?;
    }
    Ok(())
}

/// Puts the receipt of the main worker's next entry of a node last, where there is one: of the node for which something is
/// planned, from its next place on.
fn keep_next<const C: usize>(
    kept: &[Kept<C>],
    next: &mut Vec<usize>,
    pass: &mut Pass,
    planned: &Planned,
) -> Result<bool, NoMemory>
    requires { length next.old.items ≡ length kept.now }
    ensures worker { OnOk result (pass.new.worker ≡ pass.old.worker) }
    ensures long { OnOk result (length next.new.items ≡ length kept.now) }
    ensures kept { IfOk result (λ is. is ≡ true
        → IsKeptNext kept.now planned.now next.old.items next.new.items pass.old.receipts
        pass.new.receipts) }
    ensures over { IfOk result (λ is. is ≡ false → (next.new.items ≡ next.old.items)
        × (pass.new.receipts ≡ pass.old.receipts)
        × IsOver kept.now next.old.items planned.now.node) }
    ensures stops { IfOk result (λ is. is ≡ false → planned.now.node < length kept.now
        → (rest : List Planned) → IsLeft kept.now next.old.items (planned.now ∷ rest) → ⊥) }
{
    let node = planned.node;
    if node >= kept.len() {
        return Ok(false);
    }
    let entries = kept[node].entries();
    // 0 is the main worker.
    let Some(place) = next_place(entries, 0, next[node]) else {
        return Ok(false);
    };
    add_receipt(pass, receipt_of(node, place, &entries[place])?)?;
    next[node] = place + 1;
    Ok(true)
}

ghost use Rattle.std.specs.Prelude.{List, true, false};
ghost use Rattle.hsr_finished_run.specs.declared.planned.Planned.{Planned};

/// The main worker's receipts of what is planned, in that order; up to the first that no entry is left for.
#[tactic(auto, using(crate::proofs::MainPass::never_stops, crate::proofs::MainPass::up_to_all, crate::proofs::MainPass::up_to_more, crate::proofs::MainPass::up_to_none, crate::proofs::MainPass::up_to_over, crate::proofs::MainPass::up_to_end))]
fn main_pass<const C: usize>(
    alloc: Global,
    kept: &[Kept<C>],
    plan: &[Planned],
) -> Result<Pass, NoMemory>
    ensures worker { IfOk result (λ pass. pass.worker ≡ 0) }
    ensures first { IfOk result (λ pass. AreByPlan kept.now plan.now pass.receipts) }
    ensures main { IfOk result (λ pass. IsToldBy kept.now plan.now
        → AreMain kept.now plan.now pass.receipts) }
{
    let mut next = first_places(alloc, kept.len())?;
    let mut pass = Pass::new(alloc, 0);
    // The index is used by the loop's invariant alone.
    for (i, planned) in plan.iter().enumerate() {
        if !keep_next(kept, &mut next, &mut pass, planned)? {
            return Ok(pass);
        }
    }
    Ok(pass)
}

/// Passes that are right for these records and this plan, where for each node the records tell of the main worker what
/// is planned, in order. In any case pass w is worker w's, up to the highest worker that has an entry: of the main
/// worker, number 0, the next entry of each node that the plan names, up to the first that has none left, and of all
/// others their entries, in node and place order. `NoMemory` if allocation fails.
#[tactic(auto, using(crate::proofs::Receiving::has_receipts, crate::proofs::Receiving::by_plan, crate::proofs::Receiving::of_other))]
pub fn passes_of<const C: usize>(
    alloc: Global,
    kept: &[Kept<C>],
    plan: &[Planned],
) -> Result<Vec<Pass>, NoMemory>
    ensures right { IfOk result (λ passes. IsToldBy kept.now plan.now
        → HasReceipts kept.now passes.items plan.now) }
    ensures workers { IfOk result (λ passes. AreByWorker 0 passes.items) }
    ensures count { IfOk result (λ passes. length passes.items ≡ most_kept kept.now + 1) }
    ensures main { IfOk result (λ passes. AreByPlan kept.now plan.now
        (receipts_of 0 passes.items)) }
    ensures others { IfOk result (λ passes. (w : ℕ) → (w ≡ 0 → ⊥) → receipts_of w passes.items
        ≡ others_of w 0 kept.now) }
{
    let mut passes = Vec::new(alloc);
    add_pass(&mut passes, main_pass(alloc, kept, plan)?)?;
    add_others(alloc, &mut passes, kept)?;
    Ok(passes)
}
