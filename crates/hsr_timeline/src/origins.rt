//! Of each entry, its moment and what it follows.
ghost use Rattle.std.specs.Prelude.{◌≡◌, ◌<◌, ◌∷◌, [], ◌++◌, length, IfOk, OnOk};
ghost use Rattle.hsr_finished_run.specs.Finished.{IsFinished};
ghost use Rattle.hsr_run_laws.specs.Run.{record_of};
ghost use Rattle.hsr_timeline.specs.Fronts.{lists_of};
ghost use Rattle.hsr_timeline.specs.Causes.{origin_at, origins_below, origins_from};
ghost use Rattle.hsr_timeline.specs.IndexedCauses.{value_of};

use crate::origin::{Origin, Spot};
use crate::pairs::{Causes, cause_of};
use hsr_finished_run::Closed;
use hsr_frame::NoMemory;
use hsr_node::Entry;
use std::alloc::Global;

/// Puts what is known of an entry last: its moment, and the entries that it follows by these causes.
fn add(
    origins: &mut Vec<Origin>,
    planned: &Causes,
    passed: &Causes,
    spot: Spot,
    entry: &Entry,
) -> Result<(), NoMemory>
    ensures { OnOk result (origins.new.items
        ≡ origins.old.items ++ origin_at (value_of planned.now)
        (value_of passed.now) spot entry.now ∷ []) }
{
    origins.push(Origin {
        at: entry.at,
        planned: cause_of(planned, spot),
        passed: cause_of(passed, spot),
    })?;
    Ok(())
}

/// What is known of each entry of a node's record, in their order: `planned` has the main worker's entry before it,
/// `passed` the entry that passed the copy with which it came.
fn origins_of(
    alloc: Global,
    planned: &Causes,
    passed: &Causes,
    node: usize,
    entries: &[Entry],
) -> Result<Vec<Origin>, NoMemory>
    ensures { IfOk result (λ origins. origins.items
        ≡ origins_from (value_of planned.now) (value_of passed.now) node 0 entries.now) }
{
    let mut origins = Vec::new(alloc);
    for (i, entry) in entries.iter().enumerate() {
        let spot = Spot { node, place: i };
        add(&mut origins, planned, passed, spot, entry)?;
    }
    Ok(origins)
}

/// Puts those of one more record last.
fn add_record(records: &mut Vec<Vec<Origin>>, origins: Vec<Origin>) -> Result<(), NoMemory>
    ensures { OnOk result (records.new.items ≡ records.old.items ++ origins ∷ []) }
{
    records.push(origins)?;
    Ok(())
}

/// What is known of all entries, by node and place.
pub(crate) fn all_origins<const C: usize>(
    alloc: Global,
    closed: &Closed<C>,
    planned: &Causes,
    passed: &Causes,
) -> Result<Vec<Vec<Origin>>, NoMemory>
    ensures { IfOk result (λ records. lists_of records.items
        ≡ origins_below closed.now.run (value_of planned.now) (value_of passed.now)
        (length closed.now.run.places)) }
{
    let mut records = Vec::new(alloc);
    for node in 0..closed.topology().places().len() {
        // One record at a time, so that a function owns one list that it may have to drop.
        let origins = origins_of(alloc, planned, passed, node, closed.entries(node))?;
        add_record(&mut records, origins)?;
    }
    Ok(records)
}
