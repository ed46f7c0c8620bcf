//! The main worker's entries, each with the one before.
ghost use Rattle.std.specs.Prelude.{◌≡◌, ◌<◌, ◌∷◌, [], ◌++◌, length, map, if◌then◌else◌, IfOk, OnOk};
ghost use Rattle.hsr_finished_run.specs.Finished.{IsFinished};
ghost use Rattle.hsr_run_index.specs.Turns.{holds_from, place_at};
ghost use Rattle.hsr_timeline.specs.Fronts.{lists_of};
ghost use Rattle.hsr_timeline.specs.Causes.{main_pairs};
ghost use Rattle.hsr_timeline.specs.IndexedCauses.{main_by, mains_of};

use crate::origin::Spot;
use crate::pairs::list_pair;
use hsr_finished_run::Closed;
use hsr_frame::NoMemory;
use hsr_node::Entry;
use hsr_run_index::Places;
use std::alloc::Global;

/// The places of the main worker's entries in a record, rising.
fn main_places(alloc: Global, entries: &[Entry]) -> Result<Vec<usize>, NoMemory>
    ensures { IfOk result (λ places. places.items ≡ holds_from 0 entries.now 0) }
{
    let mut places = Vec::new(alloc);
    for (i, entry) in entries.iter().enumerate() {
        if entry.worker == 0 {
            places.push(i)?;
        }
    }
    Ok(places)
}

/// Puts the places of one more record last.
/// In a function of its own: so the loop's proof has one clause about the list.
fn add_record(records: &mut Vec<Vec<usize>>, places: Vec<usize>) -> Result<(), NoMemory>
    ensures { OnOk result (records.new.items ≡ records.old.items ++ places ∷ []) }
{
    records.push(places)?;
    Ok(())
}

/// The places of the main worker's entries in each record.
fn all_places<const C: usize>(
    alloc: Global,
    closed: &Closed<C>,
) -> Result<Vec<Vec<usize>>, NoMemory>
    ensures finished { IsFinished closed.now }
    ensures places { IfOk result (λ records.
        lists_of records.items ≡ map mains_of closed.now.run.records) }
{
    let mut records = Vec::new(alloc);
    for node in 0..closed.topology().places().len() {
        add_record(&mut records, main_places(alloc, closed.entries(node))?)?;
    }
    Ok(records)
}

/// The main worker's next entry of a node, behind `count` of them.
fn main_by(records: &[Vec<usize>], node: usize, count: usize) -> Option<Spot>
    ensures { result ≡ main_by (lists_of records.now) node count }
{
    match records.get(node) {
        Some(places) => match places.get(count) {
            Some(place) => Some(Spot {
                node,
                place: *place,
            }),
            None => None,
        },
        None => None,
    }
}

/// Each of the main worker's entries with the one before.
pub(crate) fn main_pairs<const C: usize>(
    alloc: Global,
    closed: &Closed<C>,
) -> Result<Vec<(Spot, Spot)>, NoMemory>
    ensures { IfOk result (λ pairs. pairs.items ≡ main_pairs closed.now.run closed.now.plan) }
{
    let records = all_places(alloc, closed)?;
    let plan = closed.plan();
    let mut counts = Places::new(alloc);
    let mut pairs = Vec::new(alloc);
    let mut before = None;
    // The index is used by the loop's invariant alone.
    for (i, x) in plan.iter().enumerate() {
        // The plan names nodes and no places: the k-th of a node is the k-th entry of worker 0 in its record.
        let count = counts.at(x.node);
        let entry = main_by(records.as_slice(), x.node, count);
        list_pair(&mut pairs, entry, before)?;
        counts.put(x.node, count + 1)?;
        before = entry;
    }
    Ok(pairs)
}
