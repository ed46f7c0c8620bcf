//! Records that are replayed, entry by entry.
ghost use Rattle.std.specs.Prelude.{◌≡◌, ◌+◌, ◌<◌, ◌^◌, IfOk, length, map};
ghost use Rattle.std.specs.List.{All};
ghost use Rattle.hsr_duptable.specs.Table.{IsTableSize};
ghost use Rattle.hsr_transcript.specs.CodeReads.{seen};
ghost use Rattle.hsr_node.specs.Place.{HasOwnAddress};
ghost use Rattle.hsr_transcript.specs.Items.{entry_items};
ghost use Rattle.hsr_transcript_lines.specs.Lines.{line_count};
ghost use Rattle.hsr_transcript.specs.Replay.{Again, Replayed, ReplayedAll};

use crate::fault::ReadFault;
use hsr_frame::NoMemory;
use hsr_node::{Entry, Event, Kept, Place, StepFault};
use std::alloc::Global;
use std::mem;

/// Lets the event of an entry happen again, and tells whether the outcome is the entry's. The event is moved to the node.
#[tactic(auto, using(crate::proofs::Replays::again_told, crate::proofs::Replays::again_refused))]
fn again<const C: usize>(kept: &mut Kept<C>, entry: &mut Entry) -> Result<bool, NoMemory>
    ensures { IfOk result (Again C kept.old kept.new entry.old) }
{
    // Its clause says that the record is legal.
    let _legal = kept.entries();
    // Moved and not copied. An age stands in its place, since it owns no octets.
    let event = mem::replace(&mut entry.event, Event::Age);
    match kept.enter(entry.worker, entry.at, event) {
        Ok(answer) => Ok(answer.outcome.is_same(&entry.outcome)),
        Err((_, StepFault::NoMemory)) => Err(NoMemory),
        // A refused event is in no record, so the entry isn't one of a run.
        Err((_, _)) => Ok(false),
    }
}

/// Replays a record whose first entry stands on line `first`; its events are moved to the node.
pub(crate) fn replay<const C: usize>(
    alloc: Global,
    node: usize,
    place: Place,
    entries: &mut [Entry],
    first: u64,
) -> Result<Kept<C>, ReadFault>
    requires station { HasOwnAddress place }
    requires capacity { IsTableSize C }
    requires lines { first + length entries.old < 2 ^ 64 }
    ensures { Replayed C node place entries.old first result }
{
    let Ok(mut kept) = Kept::<C>::new(alloc, node, place) else {
        return Err(ReadFault::NoMemory);
    };
    for i in 0..entries.len() {
        match again(&mut kept, &mut entries[i]) {
            Ok(true) => {}
            Ok(false) => {
                return Err(ReadFault::BadLine {
                    number: first + i as u64,
                });
            }
            Err(NoMemory) => return Err(ReadFault::NoMemory),
        }
    }
    // Its clause says that the record is legal.
    let _legal = kept.entries();
    Ok(kept)
}

/// Replays the records of all nodes; the first begins with its count on line `first`. Their events are moved to the nodes.
pub(crate) fn replay_all<const C: usize>(
    alloc: Global,
    places: &[Place],
    records: &mut [Vec<Entry>],
    first: u64,
) -> Result<Vec<Kept<C>>, ReadFault>
    requires stations { All HasOwnAddress places.now }
    requires paired { length records.old ≡ length places.now }
    requires capacity { IsTableSize C }
    requires lines { first + line_count (map entry_items records.old) < 2 ^ 64 }
    ensures { ReplayedAll C places.now (map entry_items records.old) first
        (seen (λ v. v.items) result) }
{
    let mut kept = Vec::new(alloc);
    let mut line = first;
    for i in 0..places.len() {
        let Ok(place) = places[i].copy() else {
            return Err(ReadFault::NoMemory);
        };
        let entries = records[i].as_mut_slice();
        let count = entries.len() as u64;
        // One line for the count of the record, which stands before its entries.
        match replay::<C>(alloc, i, place, entries, line + 1) {
            Ok(node) => {
                kept.push(node)?;
                line += 1 + count;
            }
            Err(fault) => return Err(fault),
        }
    }
    Ok(kept)
}
