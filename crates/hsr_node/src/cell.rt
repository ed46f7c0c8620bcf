//! A node that threads share.
ghost use Rattle.std.specs.Prelude.{◌≡◌, [], ◌∷◌, ◌++◌, length, IfErr, IfOk};

use crate::entry::{Entry, Receipt};
use crate::event::{Event, StepFault};
use crate::kept::Kept;
use crate::pass::Pass;
use std::sync::{Mutex, Wait};

/// A node with its record, under a lock.
///
/// Whenever the lock is free its value is a `Kept`: a node, and a record that gives this node when it is done anew. No
/// clause names that value: nothing is proved of what a cell holds at a moment, nor of waiting, fairness or order.
#[derive(Drop)]
pub struct NodeCell<const C: usize> {
    kept: Mutex<Kept<C>>,
}

impl<const C: usize> NodeCell<C> {
    ghost use Rattle.hsr_node.specs.Cell.{IsAnsweredByRecord};
    ghost use Rattle.hsr_node.specs.Kept.{owner_of, past_of};
    ghost use Rattle.hsr_node.specs.Record.{IsLegal};

    /// Puts a node under a lock. Waits for nobody, and needs no memory.
    pub fn new(kept: Kept<C>) -> NodeCell<C> {
        NodeCell {
            kept: Mutex::new(kept),
        }
    }

    /// Waits for the lock, lets an event happen to the node at a moment in microseconds, and puts the receipt last in the
    /// pass, whose worker brings the event. The answer is that receipt: the next entry of some legal record, and what that
    /// record answers there. That it is the record in this cell is not proved.
    ///
    /// A refusal hands the event back, and the pass is as before: `NoMemory`, or what a legal record refuses it for.
    /// The pass's room and its copy of the event are made before the lock is taken.
    // Inline, since a call would pass the event through memory.
    #[inline(always)]
    pub fn step(
        &self,
        rt: &impl Wait,
        pass: &mut Pass,
        at: u64,
        event: Event,
    ) -> Result<Receipt, (Event, StepFault)>
        ensures kept { IfOk result (λ r. pass.new
            ≡ record pass.old { receipts = pass.old.receipts ++ r ∷ [] }) }
        ensures call { IfOk result (λ r. (r.entry.worker ≡ pass.old.worker) × (r.entry.at ≡ at)
            × (r.entry.event ≡ event)) }
        ensures answered { IsAnsweredByRecord C at event result }
        ensures refused { IfErr result (λ e. (pass.new ≡ pass.old) × (e.0 ≡ event)) }
    {
        // Room and copy come before the lock, so that it is held for the node's step alone.
        if pass.receipts.reserve(1).is_err() {
            return Err((event, StepFault::NoMemory));
        }
        let Ok(copy) = event.copy() else {
            return Err((event, StepFault::NoMemory));
        };
        let receipt = step_legal(&mut self.kept.lock(rt), pass.worker, at, event)?;
        let again = receipt_again(&receipt, copy);
        // Room was made above, so this push isn't refused.
        let Ok(()) = pass.receipts.push(again) else {
            unreachable!()
        };
        Ok(receipt)
    }

    /// The node with its record, out of the lock. The record is legal: each outcome in it is what the past below it
    /// answers. Waits for nobody, and needs no memory.
    pub fn into_kept(self) -> Kept<C>
        ensures { IsLegal C (owner_of result) (past_of result) }
    {
        let kept = self.kept.into_inner();
        // What it answers isn't used: its contract says that the record is legal.
        let _legal = kept.entries();
        kept
    }
}

ghost use Rattle.hsr_node.specs.Cell.{IsAnsweredByRecord};

/// Steps a node whose lock is held, and tells that its record was legal.
fn step_legal<const C: usize>(
    kept: &mut Kept<C>,
    worker: u16,
    at: u64,
    event: Event,
) -> Result<Receipt, (Event, StepFault)>
    ensures kept { IfOk result (λ r. kept.new
        ≡ record kept.old { entries = kept.old.entries ++ r.entry ∷ [] }) }
    ensures receipt { IfOk result (λ r. (r.node ≡ kept.old.number)
        × (r.place ≡ length kept.old.entries)) }
    ensures call { IfOk result (λ r. (r.entry.worker ≡ worker) × (r.entry.at ≡ at)
        × (r.entry.event ≡ event)) }
    ensures answered { IsAnsweredByRecord C at event result }
    ensures refused { IfErr result (λ e. (kept.new ≡ kept.old) × (e.0 ≡ event)) }
{
    // As above: its contract says that the record is legal.
    let _legal = kept.entries();
    kept.step(worker, at, event)
}

/// A receipt once more, around a copy of its event.
fn receipt_again(receipt: &Receipt, event: Event) -> Receipt
    requires { event ≡ receipt.now.entry.event }
    ensures { result ≡ receipt.now }
{
    Receipt {
        node: receipt.node,
        place: receipt.place,
        entry: Entry {
            worker: receipt.entry.worker,
            at: receipt.entry.at,
            event,
            outcome: receipt.entry.outcome,
        },
    }
}
