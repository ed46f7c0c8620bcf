//! Which entry passed the copy of each row, by a walk over both.
//!
//! In a run of one thread the rows of a link stand in the order in which entries put them. So the next entry that passed a copy is that
//! of the next row that was put, and neither a map nor copies formed anew are needed. Where the order is another, the walk says so.
ghost use Rattle.std.specs.Prelude.{◌≡◌, ◌<◌, length, map, option_map, IfOk, IfSome};
ghost use Rattle.hsr_run_index.specs.InOrder.{copy_of_passage};
ghost use Rattle.hsr_run_index.specs.declared.agreement.Passage.TheVariants.{Put};
ghost use Rattle.hsr_timeline.specs.Hops.{passed_at, passed_from};
ghost use Rattle.hsr_timeline.specs.Partners.{partners};
ghost use Rattle.hsr_timeline.specs.Walk.{IsNextPass, IsStep};

use crate::partners::copy_of_passage;
use hsr_finished_run::Closed;
use hsr_frame::NoMemory;
use hsr_link::{Dir, Row};
use hsr_node::{Carried, Entry, Place};
use hsr_run_index::{Passage, Seen, look_at_pass};
use hsr_topology::End;
use std::alloc::Global;

/// The place of the entry that passed the copy of a row, if one did; and from where the walk goes on.
#[derive(Clone, Copy, PartialEq, Eq)]
pub(crate) struct Step {
    place: Option<usize>,
    next: usize,
}

/// The place of the first entry from a place on that passed a copy by a port, if it passed this one.
fn next_pass(
    number: usize,
    place: &Place,
    port: u8,
    entries: &[Entry],
    from: usize,
    copy: &Carried,
) -> Option<usize>
    ensures below { IfSome result (λ at. at < length entries.now) }
    ensures next { IfSome result (λ at. IsNextPass (passed_from
        (record { number = number; place = place.now }) port 0 entries.now) from copy.now at) }
{
    for at in from..entries.len() {
        match look_at_pass(number, place, port, at, &entries[at], copy) {
            Seen::Nothing => {}
            Seen::This => return Some(at),
            Seen::Other => return None,
        }
    }
    None
}

/// The next step of a walk that stands at a place, for the copy that a row tells; none where the order is another.
fn next_step(
    number: usize,
    place: &Place,
    port: u8,
    entries: &[Entry],
    from: usize,
    copy: Option<&Carried>,
) -> Option<Step>
    ensures { IfSome result (λ step. IsStep (passed_from
        (record { number = number; place = place.now }) port 0 entries.now) from
        (option_map (λ c. c.now) copy.entry) step) }
{
    let Some(copy) = copy else {
        return Some(Step {
            place: None,
            next: from,
        });
    };
    match next_pass(number, place, port, entries, from, copy) {
        Some(at) => Some(Step {
            place: Some(at),
            next: at + 1,
        }),
        None => None,
    }
}

/// The places of the entries that passed the copies of rows of a direction, row by row; none where the order is another.
fn places_walked(
    alloc: Global,
    number: usize,
    place: &Place,
    port: u8,
    entries: &[Entry],
    dir: Dir,
    rows: &[Row],
) -> Result<Option<Vec<Option<usize>>>, NoMemory>
    ensures { IfOk result (λ walked. IfSome walked (λ places. places.items ≡ partners (passed_from
        (record { number = number; place = place.now }) port 0 entries.now)
        (map (copy_of_passage Put dir) rows.now))) }
{
    let mut places = Vec::new(alloc);
    let mut from = 0;
    for (j, row) in rows.iter().enumerate() {
        let copy = copy_of_passage(Passage::Put, dir, row);
        let Some(step) = next_step(number, place, port, entries, from, copy) else {
            return Ok(None);
        };
        places.push(step.place)?;
        from = step.next;
    }
    Ok(Some(places))
}

/// The places of the entries of the node at an end that passed the copies of rows of a direction there, row by row; none where the
/// order is another.
pub(crate) fn places_in_order<const C: usize>(
    alloc: Global,
    closed: &Closed<C>,
    end: End,
    dir: Dir,
    rows: &[Row],
) -> Result<Option<Vec<Option<usize>>>, NoMemory>
    ensures { IfOk result (λ walked. IfSome walked (λ places. places.items
        ≡ partners (passed_at closed.now.run end) (map (copy_of_passage Put dir) rows.now))) }
{
    match closed.topology().places().get(end.node) {
        Some(place) => places_walked(
            alloc,
            end.node,
            place,
            end.port,
            closed.entries(end.node),
            dir,
            rows,
        ),
        None => Ok(None),
    }
}
