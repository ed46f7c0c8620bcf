//! Whether links agree with the records of the nodes at their ends.
ghost use Rattle.std.specs.Prelude.{◌≡◌, ◌↔◌, [], ◌∷◌, IfOk, IfSome, IsTrue, MatchOption};
ghost use Rattle.std.specs.List.{cons_option};
ghost use Rattle.hsr_run_index.specs.InOrder.{PutsFit, TakensFit, came, came_by, copies_of_passage, copy_of_passage, passed, passed_by};

use crate::counts::is_as_often;
use crate::passing::{Seen, look_at_pass};
use hsr_frame::NoMemory;
use hsr_link::{Dir, Fate, Row};
use hsr_node::{Carried, Entry, Event, Kept, Octets, Place, Probe, is_left_by, spelled_out};
use std::alloc::Global;

/// Which passage of a copy a row tells of.
#[derive(Clone, Copy, PartialEq, Eq)]
pub enum Passage {
    /// The node at the one end put it.
    Put,
    /// The node at the other end took it.
    Taken,
}

/// Whether the copy of a row was put, or taken, in a direction.
fn is_told(which: Passage, dir: Dir, row: &Row) -> bool
    ensures { (if result then Some row.now.carried else None) ≡ copy_of_passage which dir row.now }
{
    match which {
        Passage::Put => row.dir == dir && !row.injected,
        Passage::Taken => row.dir == dir && row.fate == Fate::Taken,
    }
}

ghost use Rattle.std.specs.Prelude.{if◌then◌else◌, Some, None};

/// The first copy that was put, or taken, in a direction, and the rows after it.
fn next_of_passage<'a>(
    which: Passage,
    dir: Dir,
    rows: &'a [Row],
) -> Option<(&'a Carried, &'a [Row])>
    ensures { MatchOption result (copies_of_passage which dir rows.now ≡ [])
        (λ r. copies_of_passage which dir rows.now
        ≡ r.0.now ∷ copies_of_passage which dir r.1.now) }
{
    let mut left = rows;
    // What is left is a variable, since the loop's invariant speaks of it.
    while let Some((row, more)) = left.split_first() {
        if is_told(which, dir, row) {
            return Some((&row.carried, more));
        }
        left = more;
    }
    None
}

/// The rows that are left where the first that was put is the copy that an entry passed, if it passed one.
#[tactic(auto, unfolding(hsr_node::specs::Copies::copy_octets))]
fn after_pass<'a>(
    number: usize,
    place: &Place,
    port: u8,
    at: usize,
    entry: &Entry,
    dir: Dir,
    rows: &'a [Row],
) -> Option<&'a [Row]>
    ensures { IfSome result (λ left. copies_of_passage Put dir rows.now
        ≡ cons_option (passed_by (record { number = number; place = place.now }) port at entry.now)
        (copies_of_passage Put dir left.now)) }
{
    // Asked first: many entries let nothing out by a port.
    if !is_left_by(&entry.outcome, port) {
        return Some(rows);
    }
    let (copy, left) = next_of_passage(Passage::Put, dir, rows)?;
    match look_at_pass(number, place, port, at, entry, copy) {
        Seen::Nothing => Some(rows),
        Seen::This => Some(left),
        Seen::Other => None,
    }
}

ghost use Rattle.hsr_run_index.specs.declared.agreement.Passage.TheVariants.{Put, Taken};

/// Whether what was put in a direction is what the entries passed by a port, in the same order.
fn puts_in_order(
    number: usize,
    place: &Place,
    entries: &[Entry],
    port: u8,
    dir: Dir,
    rows: &[Row],
) -> bool
    ensures { IsTrue result
        → (passed (record { number = number; place = place.now }) port 0 entries.now
        ≡ copies_of_passage Put dir rows.now) }
{
    let mut left = rows;
    for (at, entry) in entries.iter().enumerate() {
        let Some(more) = after_pass(number, place, port, at, entry, dir, left) else {
            return false;
        };
        left = more;
    }
    next_of_passage(Passage::Put, dir, left).is_none()
}

/// Whether they are one copy.
fn is_same_copy(copy: &Carried, other: &Carried) -> bool
    ensures { IsTrue result ↔ (copy.now ≡ other.now) }
{
    copy == other
}

/// The copy that came to a port with an entry, if one did.
pub fn came_by<'a>(port: u8, entry: &'a Entry) -> Option<&'a Carried>
    ensures { option_map (λ c. c.now) result ≡ came_by port entry.now }
{
    match &entry.event {
        Event::Arrive { port: by, carried } if *by == port => Some(carried),
        _ => None,
    }
}

ghost use Rattle.std.specs.Prelude.{option_map};

/// The rows that are left where the first that was taken is the copy that came with an entry, if one did.
fn after_arrival<'a>(port: u8, entry: &Entry, dir: Dir, rows: &'a [Row]) -> Option<&'a [Row]>
    ensures { IfSome result (λ left. copies_of_passage Taken dir rows.now
        ≡ cons_option (came_by port entry.now)
        (copies_of_passage Taken dir left.now)) }
{
    let Some(came) = came_by(port, entry) else {
        return Some(rows);
    };
    let (copy, left) = next_of_passage(Passage::Taken, dir, rows)?;
    if is_same_copy(copy, came) {
        Some(left)
    } else {
        None
    }
}

/// Whether what was taken in a direction is what came to a port, in the same order.
fn takens_in_order(entries: &[Entry], port: u8, dir: Dir, rows: &[Row]) -> bool
    ensures { IsTrue result → (copies_of_passage Taken dir rows.now ≡ came port entries.now) }
{
    let mut left = rows;
    // The index is used by the loop's invariant alone.
    for (at, entry) in entries.iter().enumerate() {
        let Some(more) = after_arrival(port, entry, dir, left) else {
            return false;
        };
        left = more;
    }
    next_of_passage(Passage::Taken, dir, left).is_none()
}

/// The copies that were put, or taken, in a direction.
fn copies_of_passage(
    alloc: Global,
    which: Passage,
    dir: Dir,
    rows: &[Row],
) -> Result<Vec<Carried>, NoMemory>
    ensures { IfOk result (λ copies. copies.items ≡ copies_of_passage which dir rows.now) }
{
    let mut copies = Vec::new(alloc);
    // The index is used by the loop's invariant alone.
    for (i, row) in rows.iter().enumerate() {
        if is_told(which, dir, row) {
            copies.push(row.carried.copy()?)?;
        }
    }
    Ok(copies)
}

/// The copy that an entry of a node's record, `number`, let leave by a port; `at` is the entry's place. `NoMemory` if
/// allocation fails.
pub fn passed_by(
    alloc: Global,
    number: usize,
    place: &Place,
    port: u8,
    at: usize,
    entry: &Entry,
) -> Result<Option<Carried>, NoMemory>
    ensures { IfOk result (λ copy. copy ≡ passed_by
        (record { number = number; place = place.now }) port at entry.now) }
{
    let Some(octets) = spelled_out(place, &entry.event, &entry.outcome, port) else {
        return Ok(None);
    };
    let octets = Octets::from_spelled(alloc, &octets)?;
    let probe = entry.event.probe(Probe {
        node: number,
        place: at,
    });
    Ok(Some(Carried { probe, octets }))
}

/// The copies that the entries of a record let leave by a port.
fn passed(
    alloc: Global,
    number: usize,
    place: &Place,
    port: u8,
    entries: &[Entry],
) -> Result<Vec<Carried>, NoMemory>
    ensures { IfOk result (λ copies. copies.items ≡ passed
        (record { number = number; place = place.now }) port 0 entries.now) }
{
    let mut copies = Vec::new(alloc);
    for (at, entry) in entries.iter().enumerate() {
        if let Some(copy) = passed_by(alloc, number, place, port, at, entry)? {
            copies.push(copy)?;
        }
    }
    Ok(copies)
}

/// The copies that came to a port.
fn arrived(alloc: Global, port: u8, entries: &[Entry]) -> Result<Vec<Carried>, NoMemory>
    ensures { IfOk result (λ copies. copies.items ≡ came port entries.now) }
{
    let mut copies = Vec::new(alloc);
    // The index is used by the loop's invariant alone.
    for (at, entry) in entries.iter().enumerate() {
        if let Some(copy) = came_by(port, entry) {
            copies.push(copy.copy()?)?;
        }
    }
    Ok(copies)
}

/// Whether what was put in a direction is what a node passed by a port, each copy as often; in their order it mostly is.
/// Else copies are counted by an index; `NoMemory` if allocation fails.
#[tactic(auto, using(crate::proofs::Forwards::puts_often, crate::proofs::Forwards::puts_same))]
pub fn puts_fit<const C: usize>(
    alloc: Global,
    kept: &Kept<C>,
    port: u8,
    dir: Dir,
    rows: &[Row],
) -> Result<bool, NoMemory>
    ensures { IfOk result (λ fit. IsTrue fit ↔ PutsFit kept.now port dir rows.now) }
{
    let entries = kept.entries();
    // A world's rows stand in the order of its records, so copies are counted only where this fails.
    if puts_in_order(kept.node(), kept.place(), entries, port, dir, rows) {
        return Ok(true);
    }
    let passed = passed(alloc, kept.node(), kept.place(), port, entries)?;
    let put = copies_of_passage(alloc, Passage::Put, dir, rows)?;
    is_as_often(alloc, passed.as_slice(), put.as_slice())
}

/// Whether what was taken in a direction is what came to a port of a node, each copy as often; in their order it mostly is.
/// Else copies are counted by an index; `NoMemory` if allocation fails.
#[tactic(auto, using(crate::proofs::Forwards::takens_often, crate::proofs::Forwards::takens_same))]
pub fn takens_fit<const C: usize>(
    alloc: Global,
    kept: &Kept<C>,
    port: u8,
    dir: Dir,
    rows: &[Row],
) -> Result<bool, NoMemory>
    ensures { IfOk result (λ fit. IsTrue fit ↔ TakensFit kept.now port dir rows.now) }
{
    let entries = kept.entries();
    // In order first, as what was put.
    if takens_in_order(entries, port, dir, rows) {
        return Ok(true);
    }
    let taken = copies_of_passage(alloc, Passage::Taken, dir, rows)?;
    let came = arrived(alloc, port, entries)?;
    is_as_often(alloc, taken.as_slice(), came.as_slice())
}
