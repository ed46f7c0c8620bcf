//! Whether receipts tell what records tell.
ghost use Rattle.std.specs.Prelude.{◌≡◌, ◌↔◌, ◌++◌, ◌∷◌, List, true, false, IfOk};
ghost use Rattle.hsr_node.specs.declared.entry.Receipt.{Receipt};
ghost use Rattle.hsr_finished_run.specs.Next.{AreNext};
ghost use Rattle.hsr_run_index.specs.Turns.{place_at};

use hsr_frame::NoMemory;
use hsr_node::Receipt;
use hsr_run_index::{Places, Turns};

/// Whether a receipt shows the next entry of the worker in its node's record; the node's next place is then behind it.
fn comes_next<const C: usize>(
    turns: &Turns<'_, C>,
    worker: u16,
    next: &mut Places,
    receipt: &Receipt,
) -> Result<bool, NoMemory>
    ensures comes { IfOk result (λ comes. comes ≡ true → (rest : List Receipt)
        → AreNext worker turns.now (place_at next.old) (receipt.now ∷ rest)
        ↔ AreNext worker turns.now (place_at next.new) rest) }
    ensures wrong { IfOk result (λ comes. comes ≡ false → (rest : List Receipt)
        → AreNext worker turns.now (place_at next.old) (receipt.now ∷ rest) → ⊥) }
{
    let node = receipt.node;
    let place = receipt.place;
    let from = next.at(node);
    if !turns.is_next(worker, node, from, place) {
        return Ok(false);
    }
    let record = &turns.kept()[node];
    // The place is there: `is_next` was asked first.
    if !receipt.entry.is_same(&record.entries()[place]) {
        return Ok(false);
    }
    next.put(node, place + 1)?;
    Ok(true)
}

/// Whether receipts, one after another, each show the next entry of the worker in their node's record.
pub(crate) fn come_next<const C: usize>(
    turns: &Turns<'_, C>,
    worker: u16,
    next: &mut Places,
    receipts: &[Receipt],
) -> Result<bool, NoMemory>
    ensures come { IfOk result (λ come. come ≡ true → (rest : List Receipt)
        → AreNext worker turns.now (place_at next.old) (receipts.now ++ rest)
        ↔ AreNext worker turns.now (place_at next.new) rest) }
    ensures wrong { IfOk result (λ come. come ≡ false → (rest : List Receipt)
        → AreNext worker turns.now (place_at next.old) (receipts.now ++ rest) → ⊥) }
{
    // The index is used by the loop's invariant alone.
    for (i, receipt) in receipts.iter().enumerate() {
        if !comes_next(turns, worker, next, receipt)? {
            return Ok(false);
        }
    }
    Ok(true)
}
