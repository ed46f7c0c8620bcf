//! How far the receipts of each worker have come in the records.
ghost use Rattle.std.specs.Prelude.{◌≡◌, ◌≤◌, ◌<◌, ◌+◌, ◌++◌, [], ◌∷◌, ℕ, List, length, true, IfOk, MatchOption, OnOk, slice_index_or};
ghost use Rattle.std.specs.List.{AllByRecursion};
ghost use Rattle.hsr_finished_run.specs.Next.{holds_from};
ghost use Rattle.hsr_finished_run.specs.Reached.{AllFollow, AreTold, Follows, HasUsedUp, IsFirstLost, IsMarked, IsMore, IsStart};
ghost use Rattle.hsr_finished_run.specs.declared.reached.Reached.{Reached};
ghost use Rattle.hsr_finished_run.specs.Workers.{most_in, most_kept, most_passed, most_worker};
ghost use Rattle.hsr_node.specs.Kept.{Receipts};
ghost use Rattle.hsr_node.specs.declared.entry.Receipt.{Receipt};

use crate::receipts::come_next;
use hsr_frame::NoMemory;
use hsr_node::{Entry, Kept, Pass, Receipt};
use hsr_run_index::{Places, Turns};
use std::alloc::Global;

/// For each node of which a worker has receipts the place from which on its next entry is looked for, and whether all are
/// right so far.
#[derive(Drop)]
pub(crate) struct Reached {
    pub next: Places,
    pub is_right: bool,
}

/// Puts a worker last that stands before its first receipt.
fn add_reached(alloc: Global, all: &mut Vec<Reached>) -> Result<(), NoMemory>
    ensures { OnOk result (IsMore all.old.items all.new.items) }
{
    all.push(Reached {
        next: Places::new(alloc),
        is_right: true,
    })?;
    Ok(())
}

/// Where workers up to one stand before their first receipt.
#[tactic(auto, using(crate::proofs::Reaching::start_more))]
fn first_reached(alloc: Global, most: u16) -> Result<Vec<Reached>, NoMemory>
    ensures count { IfOk result (λ all. length all.items ≡ most + 1) }
    ensures start { IfOk result (λ all. AllByRecursion IsStart all.items) }
{
    let mut all = Vec::new(alloc);
    // 32 bits, since `most` may be the last number of 16.
    for worker in 0..u32::from(most) + 1 {
        add_reached(alloc, &mut all)?;
    }
    Ok(all)
}

/// Goes on with more receipts of a worker.
#[tactic(auto, using(crate::proofs::Reaching::follows_more))]
fn follow<const C: usize>(
    turns: &Turns<'_, C>,
    worker: u16,
    reached: &mut Reached,
    receipts: &[Receipt],
) -> Result<(), NoMemory>
    ensures { OnOk result ((passes : List Receipts) (rest : List Receipt)
        → Follows turns.now passes worker (receipts.now ++ rest) reached.old
        → Follows turns.now passes worker rest reached.new) }
{
    let comes = come_next(turns, worker, &mut reached.next, receipts)?;
    // A worker that was wrong once stays so.
    reached.is_right &= comes;
    Ok(())
}

/// Goes on with the receipts of a pass.
fn follow_pass<const C: usize>(
    turns: &Turns<'_, C>,
    all: &mut Vec<Reached>,
    pass: &Pass,
) -> Result<(), NoMemory>
    requires { pass.now.worker < length all.old.items }
    ensures count { OnOk result (length all.new.items ≡ length all.old.items) }
    ensures follow { OnOk result ((passes : List Receipts) (rest : List Receipts)
        → AllFollow turns.now passes (pass.now ∷ rest) all.old.items
        → AllFollow turns.now passes rest all.new.items) }
{
    let worker = pass.worker();
    follow(
        turns,
        worker,
        &mut all[usize::from(worker)],
        pass.receipts(),
    )?;
    Ok(())
}

/// Goes on with the receipts of all passes.
fn follow_passes<const C: usize>(
    turns: &Turns<'_, C>,
    all: &mut Vec<Reached>,
    passes: &[Pass],
) -> Result<(), NoMemory>
    requires { most_passed passes.now < length all.old.items }
    ensures count { OnOk result (length all.new.items ≡ length all.old.items) }
    ensures follow { OnOk result ((whole : List Receipts)
        → AllFollow turns.now whole passes.now all.old.items
        → AllFollow turns.now whole [] all.new.items) }
{
    // The index is used by the loop's invariant alone.
    for (i, pass) in passes.iter().enumerate() {
        follow_pass(turns, all, pass)?;
    }
    Ok(())
}

/// Marks the worker of an entry as wrong where no receipt has come so far.
fn mark_entry(all: &mut Vec<Reached>, node: usize, place: usize, entry: &Entry)
    requires { entry.now.worker < length all.old.items }
    ensures { IsMarked (λ w next. entry.now.worker ≡ w
        → place < next node) all.old.items all.new.items }
{
    let reached = &mut all[usize::from(entry.worker)];
    // An entry behind the last receipt of its worker is left over.
    reached.is_right = reached.is_right && place < reached.next.at(node);
}

/// Marks the workers of which entries of a record are left as wrong.
fn mark_record(all: &mut Vec<Reached>, node: usize, entries: &[Entry])
    requires { most_in entries.now < length all.old.items }
    ensures { IsMarked (λ w next. holds_from w entries.now (next node)
        ≡ []) all.old.items all.new.items }
{
    for (place, entry) in entries.iter().enumerate() {
        mark_entry(all, node, place, entry);
    }
}

/// Marks the workers of which entries of any record are left as wrong.
fn mark_records<const C: usize>(kept: &[Kept<C>], all: &mut Vec<Reached>)
    requires { most_kept kept.now < length all.old.items }
    ensures { IsMarked (λ w next. HasUsedUp kept.now w next
        (length kept.now)) all.old.items all.new.items }
{
    for (node, record) in kept.iter().enumerate() {
        mark_record(all, node, record.entries());
    }
}

/// Of each worker up to one that no entry or pass is above, whether its receipts are its entries.
pub(crate) fn reached_by<const C: usize>(
    alloc: Global,
    kept: &[Kept<C>],
    passes: &[Pass],
    most: u16,
) -> Result<Vec<Reached>, NoMemory>
    requires { most_worker kept.now passes.now ≤ most }
    ensures { IfOk result (λ all. AreTold kept.now passes.now (most + 1) all.items) }
{
    let turns = Turns::new(alloc, kept)?;
    let mut all = first_reached(alloc, most)?;
    follow_passes(&turns, &mut all, passes)?;
    mark_records(kept, &mut all);
    Ok(all)
}

/// The lowest worker whose receipts are wrong.
pub(crate) fn first_lost(all: &[Reached]) -> Option<u16>
    requires { length all.now ≤ 65536 }
    ensures { MatchOption result ((w : ℕ) (d : Reached) → w < length all.now
        → (slice_index_or all.now w d).is_right ≡ true) (λ worker. IsFirstLost all.now worker) }
{
    for (worker, reached) in all.iter().enumerate() {
        if !reached.is_right {
            // It fits: there are 65536 workers at most.
            return Some(worker as u16);
        }
    }
    None
}
