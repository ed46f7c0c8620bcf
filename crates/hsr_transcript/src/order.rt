//! The plan of the main worker, by the order of its entries.
ghost use Rattle.std.specs.Prelude.{◌≡◌, ◌↔◌, ◌<◌, ℕ, [], length, map, option_map, IfOk, IsTrue};
ghost use Rattle.hsr_transcript.specs.Order.{IsNext, OrderTold, Turned, left_in};
ghost use Rattle.hsr_transcript.specs.Items.{entry_items};

use hsr_finished_run::{Planned, next_place};
use hsr_frame::NoMemory;
use hsr_node::Entry;
use std::alloc::Global;

/// The place of the main worker's first entry from a place on.
#[tactic(auto, using(crate::proofs::Nexts::next_main))]
fn next_main(entries: &[Entry], from: usize) -> Option<usize>
    ensures { IsNext entries.now from result }
{
    next_place(entries, 0, from)
}

/// Lets a node have its turn: tells its next entry of the main worker, if it has one.
fn take_turn(
    turn: u64,
    records: &[Vec<Entry>],
    passed: &mut [usize],
) -> Result<Option<Planned>, NoMemory>
    requires { length passed.old ≡ length records.now }
    ensures { IfOk result (Turned (map entry_items records.now) passed.old passed.new turn) }
{
    let node = turn as usize;
    if node >= records.len() {
        return Ok(None);
    }
    let entries = records[node].as_slice();
    let Some(place) = next_main(entries, passed[node]) else {
        return Ok(None);
    };
    let entry = &entries[place];
    // A copy: the entry's own event is moved to the node when it is replayed.
    let event = entry.event.copy()?;
    passed[node] = place + 1;
    Ok(Some(Planned {
        node,
        at: entry.at,
        event,
    }))
}

/// Whether no entry of the main worker is left.
fn is_used_up(records: &[Vec<Entry>], passed: &[usize]) -> bool
    requires { length passed.now ≡ length records.now }
    ensures { IsTrue result ↔ ((k : ℕ) → left_in (map entry_items records.now) passed.now k ≡ []) }
{
    for k in 0..records.len() {
        let next = next_main(records[k].as_slice(), passed[k]);
        if next.is_some() {
            return false;
        }
    }
    true
}

/// The plan whose entries stand in this order: each turn takes the next entry of the main worker in the record of its node,
/// and all are taken; `None` where the order doesn't fit the records.
pub(crate) fn plan_of(
    alloc: Global,
    main: &[u64],
    records: &[Vec<Entry>],
) -> Result<Option<Vec<Planned>>, NoMemory>
    ensures { IfOk result (λ plan. OrderTold main.now (map entry_items records.now)
        (option_map (λ p. p.items) plan)) }
{
    let mut plan = Vec::new(alloc);
    // For each node the place behind its last turn, so that all turns together are one walk over the records.
    let mut passed = vec![in alloc; 0usize; records.len()]?;
    let slots = passed.as_mut_slice();
    for turn in main {
        match take_turn(*turn, records, slots) {
            Ok(Some(planned)) => {
                plan.push(planned)?;
            }
            Ok(None) => return Ok(None),
            Err(NoMemory) => return Err(NoMemory),
        }
    }
    if is_used_up(records, slots) {
        Ok(Some(plan))
    } else {
        Ok(None)
    }
}
