//! What the entries of a record passed, and what they let in.
ghost use Rattle.std.specs.Prelude.{◌≡◌, map, IfOk};
ghost use Rattle.hsr_run_index.specs.InOrder.{came_by};
ghost use Rattle.hsr_timeline.specs.Hops.{came_at, passed_at, passed_from};

use hsr_finished_run::Closed;
use hsr_frame::NoMemory;
use hsr_node::{Carried, Entry, Place};
use hsr_run_index::{came_by, passed_by};
use hsr_topology::End;
use std::alloc::Global;

/// The copy that came to a port with an entry, owned.
fn let_in_by(port: u8, entry: &Entry) -> Result<Option<Carried>, NoMemory>
    ensures { IfOk result (λ copy. copy ≡ came_by port entry.now) }
{
    match came_by(port, entry) {
        // Owned, as what was passed is, which is spelled anew: so one function compares both.
        Some(copy) => Ok(Some(copy.copy()?)),
        None => Ok(None),
    }
}

/// What each entry of a record passed by a port.
fn passed(
    alloc: Global,
    number: usize,
    place: &Place,
    port: u8,
    entries: &[Entry],
) -> Result<Vec<Option<Carried>>, NoMemory>
    ensures { IfOk result (λ copies. copies.items
        ≡ passed_from (record { number = number; place = place.now }) port 0 entries.now) }
{
    let mut copies = Vec::new(alloc);
    for (at, entry) in entries.iter().enumerate() {
        copies.push(passed_by(alloc, number, place, port, at, entry)?)?;
    }
    Ok(copies)
}

/// What each entry of a record let in by a port.
fn came(alloc: Global, port: u8, entries: &[Entry]) -> Result<Vec<Option<Carried>>, NoMemory>
    ensures { IfOk result (λ copies. copies.items ≡ map (came_by port) entries.now) }
{
    let mut copies = Vec::new(alloc);
    // The index is used by the loop's invariant alone.
    for (at, entry) in entries.iter().enumerate() {
        copies.push(let_in_by(port, entry)?)?;
    }
    Ok(copies)
}

/// What each entry of the node at an end passed there.
pub(crate) fn passed_at<const C: usize>(
    alloc: Global,
    closed: &Closed<C>,
    end: End,
) -> Result<Vec<Option<Carried>>, NoMemory>
    ensures { IfOk result (λ copies. copies.items ≡ passed_at closed.now.run end) }
{
    match closed.topology().places().get(end.node) {
        Some(place) => passed(alloc, end.node, place, end.port, closed.entries(end.node)),
        None => Ok(Vec::new(alloc)),
    }
}

/// What each entry of the node at an end let in there.
pub(crate) fn came_at<const C: usize>(
    alloc: Global,
    closed: &Closed<C>,
    end: End,
) -> Result<Vec<Option<Carried>>, NoMemory>
    ensures { IfOk result (λ copies. copies.items ≡ came_at closed.now.run end) }
{
    match closed.topology().places().get(end.node) {
        // The record is asked for only where the node is there.
        Some(_) => came(alloc, end.port, closed.entries(end.node)),
        None => Ok(Vec::new(alloc)),
    }
}
