//! Which entries of a worker come next in a record, by an index.
ghost use Rattle.std.specs.Prelude.{◌≡◌, ℕ, ◌+◌, ◌<◌, ◌↔◌, ◌++◌, [], ◌∷◌, length, slice_index_or, IfOk, IsTrue, OnOk};
ghost use Rattle.hsr_node.specs.Kept.{Record};
ghost use Rattle.hsr_run_index.specs.Turns.{AreBehind, AreBehindIn, IsNext};

use crate::places::Places;
use hsr_frame::NoMemory;
use hsr_node::{Entry, Kept};
use std::alloc::Global;
use std::marker::Model;

/// Records, and for each of their entries the place behind the one before it of the same worker; 0 at a worker's first.
#[derive(Drop)]
pub struct Turns<'a, const C: usize> {
    kept: &'a [Kept<C>],
    behind: Vec<Vec<usize>>,
}

impl<'a, const C: usize> Model for Turns<'a, C> {
    ghost use Rattle.std.specs.Prelude.{List, length};
    ghost use Rattle.hsr_run_index.specs.Turns.{AreBehind};
    ghost use Rattle.hsr_node.specs.Kept.{Record};

    ghost Value = { List Record };

    ghost view = { λ t. t.kept.now };

    ghost invariant = { λ t. AreBehind t.kept.now t.behind.items (length t.kept.now) };
}

fn add(places: &mut Vec<usize>, place: usize) -> Result<(), NoMemory>
    ensures { OnOk result (places.new.items ≡ places.old.items ++ place ∷ []) }
{
    places.push(place)?;
    Ok(())
}

/// For each entry of a record the place behind the one before it of the same worker.
fn behind_in(alloc: Global, entries: &[Entry]) -> Result<Vec<usize>, NoMemory>
    ensures { IfOk result (λ behind. AreBehindIn entries.now behind.items (length entries.now)) }
{
    let mut latest = Places::new(alloc);
    let mut behind = Vec::new(alloc);
    for (place, entry) in entries.iter().enumerate() {
        let worker = usize::from(entry.worker);
        add(&mut behind, latest.at(worker))?;
        latest.put(worker, place + 1)?;
    }
    Ok(behind)
}

fn add_record(behind: &mut Vec<Vec<usize>>, places: Vec<usize>) -> Result<(), NoMemory>
    ensures { OnOk result (behind.new.items ≡ behind.old.items ++ places ∷ []) }
{
    behind.push(places)?;
    Ok(())
}

/// The same for each record.
#[tactic(auto, using(crate::proofs::Turning::records_more))]
fn behind_of<const C: usize>(alloc: Global, kept: &[Kept<C>]) -> Result<Vec<Vec<usize>>, NoMemory>
    ensures { IfOk result (λ behind. AreBehind kept.now behind.items (length kept.now)) }
{
    let mut behind = Vec::new(alloc);
    // The index is used by the loop's invariant alone.
    for (node, record) in kept.iter().enumerate() {
        add_record(&mut behind, behind_in(alloc, record.entries())?)?;
    }
    Ok(behind)
}

/// Whether from a place on the first entry of a worker stands at another: where the entry before it of the same worker, if
/// there is one, stands before that place.
#[tactic(auto, using(crate::proofs::Turning::next_from, crate::proofs::Turning::next_tells))]
fn is_next(entries: &[Entry], behind: &[usize], worker: u16, from: usize, place: usize) -> bool
    requires { AreBehindIn entries.now behind.now (length entries.now) }
    ensures { IsTrue result ↔ IsNext worker entries.now from place }
{
    if place >= entries.len() || entries[place].worker != worker {
        return false;
    }
    // So no entry of the worker stands between: one look, however long the record is.
    from <= place && behind[place] <= from
}

impl<'a, const C: usize> Turns<'a, C> {
    /// The turns of these records. `NoMemory` if allocation fails.
    pub fn new(alloc: Global, kept: &'a [Kept<C>]) -> Result<Turns<'a, C>, NoMemory>
        ensures { IfOk result (λ turns. turns ≡ kept.now) }
    {
        let behind = behind_of(alloc, kept)?;
        Ok(Turns { kept, behind })
    }

    /// The records.
    pub fn kept(&self) -> &'a [Kept<C>]
        ensures { result.now ≡ self.now }
    {
        self.kept
    }

    /// Whether from a place of a node's record on the first entry of this worker stands at another.
    pub fn is_next(&self, worker: u16, node: usize, from: usize, place: usize) -> bool
        ensures next { (d : Record) → IsTrue result ↔ ((node < length self.now)
            × IsNext worker (slice_index_or self.now node d).entries from place) }
        ensures node { IsTrue result → node < length self.now }
    {
        if node >= self.kept.len() {
            return false;
        }
        let entries = self.kept[node].entries();
        is_next(entries, self.behind[node].as_slice(), worker, from, place)
    }
}
