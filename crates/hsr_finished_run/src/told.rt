//! Whether records tell of the main worker what is planned.
ghost use Rattle.std.specs.Prelude.{◌≡◌, ◌↔◌, ◌∷◌, List, length, true, false, IfOk, IsTrue};
ghost use Rattle.hsr_finished_run.specs.Passes.{IsToldBy};
ghost use Rattle.hsr_finished_run.specs.Reached.{AreUsedUp};
ghost use Rattle.hsr_finished_run.specs.Told.{IsRest};
ghost use Rattle.hsr_finished_run.specs.declared.planned.Planned.{Planned};

use crate::next::{first_places, next_place};
use crate::planned::Planned;
use hsr_frame::NoMemory;
use hsr_node::{Entry, Kept};
use std::alloc::Global;

/// Whether an entry is of what was planned.
fn is_of(planned: &Planned, entry: &Entry) -> bool
    ensures { IsTrue result ↔ ((entry.now.at ≡ planned.now.at)
        × (entry.now.event ≡ planned.now.event)) }
{
    entry.at == planned.at && entry.event == planned.event
}

/// Whether the main worker's next entry of a node is of what is planned next; the node's next place is then behind it.
fn tells_next<const C: usize>(kept: &[Kept<C>], next: &mut Vec<usize>, planned: &Planned) -> bool
    requires { length next.old.items ≡ length kept.now }
    ensures long { length next.new.items ≡ length kept.now }
    ensures tells { result ≡ true → (rest : List Planned)
        → IsRest kept.now next.old.items (planned.now ∷ rest)
        ↔ IsRest kept.now next.new.items rest }
    ensures other { result ≡ false → (rest : List Planned)
        → IsRest kept.now next.old.items (planned.now ∷ rest) → ⊥ }
{
    let node = planned.node;
    if node >= kept.len() {
        return false;
    }
    let entries = kept[node].entries();
    // 0 is the main worker.
    let Some(place) = next_place(entries, 0, next[node]) else {
        return false;
    };
    if !is_of(planned, &entries[place]) {
        return false;
    }
    next[node] = place + 1;
    true
}

/// Whether no entry of the main worker is left in the records from the next places on.
fn are_used_up<const C: usize>(kept: &[Kept<C>], next: &[usize]) -> bool
    requires { length next.now ≡ length kept.now }
    ensures { IsTrue result ↔ AreUsedUp kept.now 0 next.now (length kept.now) }
{
    for (node, record) in kept.iter().enumerate() {
        if next_place(record.entries(), 0, next[node]).is_some() {
            return false;
        }
    }
    true
}

/// Whether for each node the records tell of the main worker what is planned, in order, and nothing is planned for other
/// nodes.
#[tactic(auto, using(crate::proofs::Telling::rest_first, crate::proofs::Telling::rest_none))]
pub(crate) fn is_told<const C: usize>(
    alloc: Global,
    kept: &[Kept<C>],
    plan: &[Planned],
) -> Result<bool, NoMemory>
    ensures { IfOk result (λ told. IsTrue told ↔ IsToldBy kept.now plan.now) }
{
    let mut next = first_places(alloc, kept.len())?;
    // The index is used by the loop's invariant alone.
    for (i, planned) in plan.iter().enumerate() {
        if !tells_next(kept, &mut next, planned) {
            return Ok(false);
        }
    }
    Ok(are_used_up(kept, next.as_slice()))
}
