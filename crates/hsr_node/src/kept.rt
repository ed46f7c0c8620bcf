//! A node with the record of all that happened to it.
ghost use Rattle.std.specs.Prelude.{◌≡◌, ◌⊎◌, ◌^◌, [], ◌∷◌, ◌++◌, length, reverse, Ok, Err, IfErr, IfOk, MatchResult};
ghost use Rattle.hsr_duptable.specs.Table.{IsTableSize};
ghost use Rattle.hsr_node.specs.declared.event.StepFault.TheVariants.{NoMemory as NoRoom};
ghost use Rattle.hsr_frame.specs.Counters.{AreWithin};

use crate::entry::{Entry, Receipt};
use crate::event::{Event, Outcome, StepFault};
use crate::growing::make_room;
use crate::node::Node;
use crate::place::Place;
use hsr_frame::{Counters, NoMemory};
use std::alloc::Global;
use std::marker::Model;

/// The place of a new entry in its record, and what was answered.
#[derive(Clone, Copy, PartialEq, Eq)]
pub struct Answer {
    pub place: usize,
    pub outcome: Outcome,
}

/// A node that keeps a record of all its events and answers, the oldest first. Its duplicate tables have `C` entries
/// each, `C` from 1 to 65535 (IEC 62439-3 clause 5).
#[derive(Drop)]
pub struct Kept<const C: usize> {
    number: usize,
    place: Place,
    node: Node<C>,
    entries: Vec<Entry>,
    // How many entries are expected in all: no part of what a clause sees.
    expected: usize,
}

impl<const C: usize> Model for Kept<C> {
    ghost use Rattle.std.specs.Prelude.{reverse};
    ghost use Rattle.hsr_node.specs.Kept.{Record, Replays};

    ghost Value = { Record };

    ghost view = { λ k. record { number = k.number; place = k.place; entries = k.entries.items } };

    ghost invariant = { λ k. Replays C k.place (reverse k.entries.items) k.node };
}

impl<const C: usize> Kept<C> {
    ghost use Rattle.hsr_node.specs.Counts.{counters};
    ghost use Rattle.hsr_node.specs.Kept.{IsAnswered, answer_to, owner_of, past_of};
    ghost use Rattle.hsr_node.specs.Place.{HasOwnAddress};
    ghost use Rattle.hsr_node.specs.Record.{IsLegal};

    /// A node of this number at this place that has done nothing. No group has the address of a DANH or RedBox.
    /// `NoMemory` if allocation fails.
    pub fn new(alloc: Global, number: usize, place: Place) -> Result<Kept<C>, NoMemory>
        requires station { HasOwnAddress place }
        requires entries { IsTableSize C }
        ensures { IfOk result (λ kept. kept
            ≡ record { number = number; place = place; entries = [] }) }
    {
        let node = Node::new(alloc, &place)?;
        Ok(Kept {
            number,
            place,
            node,
            entries: Vec::new(alloc),
            expected: 0,
        })
    }

    /// Tells how many entries are expected in all, so that its record isn't moved as it grows. Nothing else depends on it.
    pub fn expect(&mut self, entries: usize)
        ensures { self.new ≡ self.old }
    {
        self.expected = entries;
    }

    /// Lets an event happen that a worker brings, at a moment in microseconds, and keeps one more entry: the worker, the
    /// moment and the event as they are given, and what the machine answers that remembers, of its whole record, the
    /// youngest unexpired passed frames up to `C`. The answer names the place of the entry, and nothing is copied. A refusal
    /// hands the event back and changes nothing: `NoMemory`, or what that machine refuses it for.
    // Events are long, and a call would copy one to memory and back.
    #[inline(always)]
    pub fn enter(
        &mut self,
        worker: u16,
        at: u64,
        event: Event,
    ) -> Result<Answer, (Event, StepFault)>
        ensures kept { IfOk result (λ a. self.new ≡ record self.old {
          entries = self.old.entries
              ++ record { worker = worker; at = at; event = event; outcome = a.outcome } ∷ [];
        }) }
        ensures place { IfOk result (λ a. a.place ≡ length self.old.entries) }
        ensures answered { MatchResult result (λ a. answer_to C self.old at event ≡ Ok a.outcome)
            (λ e. (e.1 ≡ NoRoom) ⊎ (answer_to C self.old at event ≡ Err e.1)) }
        ensures refused { IfErr result (λ e. (self.new ≡ self.old) × (e.0 ≡ event)) }
    {
        // Room first: after the node's step nothing may fail.
        if make_room(&mut self.entries, self.expected).is_err() {
            return Err((event, StepFault::NoMemory));
        }
        let outcome = match self.node.apply(at, &event) {
            Ok(outcome) => outcome,
            Err(fault) => return Err((event, fault)),
        };
        let place = self.entries.len();
        // Room was made above, so this push isn't refused.
        let Ok(()) = self.entries.push(Entry {
            worker,
            at,
            event,
            outcome,
        })
        else {
            unreachable!()
        };
        Ok(Answer { place, outcome })
    }

    /// Lets an event happen that a worker brings, at a moment in microseconds, and keeps one more entry: the worker, the
    /// moment and the event as they are given, and what the machine answers that remembers, of its whole record, the
    /// youngest unexpired passed frames up to `C`. The receipt is that entry, and names its place. A refusal hands the
    /// event back and changes nothing: `NoMemory`, or what that machine refuses it for.
    // Inline, since a call would pass the event through memory.
    #[inline(always)]
    pub fn step(
        &mut self,
        worker: u16,
        at: u64,
        event: Event,
    ) -> Result<Receipt, (Event, StepFault)>
        ensures kept { IfOk result (λ r. self.new
            ≡ record self.old { entries = self.old.entries ++ r.entry ∷ [] }) }
        ensures receipt { IfOk result (λ r. (r.node ≡ self.old.number)
            × (r.place ≡ length self.old.entries)) }
        ensures call { IfOk result (λ r. (r.entry.worker ≡ worker) × (r.entry.at ≡ at)
            × (r.entry.event ≡ event)) }
        ensures answered { IsAnswered C self.old at event result }
        ensures refused { IfErr result (λ e. (self.new ≡ self.old) × (e.0 ≡ event)) }
    {
        // Before the step, so that a copy that is refused leaves the node as it was.
        let Ok(copy) = event.copy() else {
            return Err((event, StepFault::NoMemory));
        };
        match self.enter(worker, at, event) {
            Ok(Answer { place, outcome }) => Ok(Receipt {
                node: self.number,
                place,
                entry: Entry {
                    worker,
                    at,
                    event: copy,
                    outcome,
                },
            }),
            Err(refusal) => Err(refusal),
        }
    }

    /// The record, the oldest entry first. Each outcome in it is what the past below it answers.
    pub fn entries(&self) -> &[Entry]
        ensures entries { result.now ≡ self.now.entries }
        ensures legal { IsLegal C (owner_of self.now) (past_of self.now) }
    {
        self.entries.as_slice()
    }

    /// How often each thing happened, counted over the record.
    pub fn counters(&self) -> Counters
        ensures value { result ≡ counters self.now.place (past_of self.now) }
        ensures within { AreWithin result (2 ^ 62) }
    {
        self.node.counters()
    }

    /// The number of the node.
    pub fn node(&self) -> usize
        ensures { result ≡ self.now.number }
    {
        self.number
    }

    /// The place of the node.
    pub fn place(&self) -> &Place
        ensures { result.now ≡ self.now.place }
    {
        &self.place
    }
}

ghost use Rattle.hsr_node.specs.Holds.{HoldsWhatIsTold};

/// A node to which a record replays holds what the record tells: at each egress the youngest unexpired passed frames up to
/// `C`, the nodes and stations that are known, the next number, the moment and the counters.
pub fn holds_what_is_told<const C: usize>()
    ensures { HoldsWhatIsTold C }
{}
