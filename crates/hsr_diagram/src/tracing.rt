//! The arrows of rows.
ghost use Rattle.std.specs.Prelude.{◌≡◌, ◌<◌, ◌++◌, ◌∷◌, [], length, map, IfOk, OnOk};
ghost use Rattle.std.specs.Option.{option_and_then};
ghost use Rattle.hsr_timeline.specs.Fronts.{lists_of};
ghost use Rattle.hsr_timeline.specs.Stamps.{at_spot};
ghost use Rattle.hsr_diagram.specs.Arrows.{arrow_of, hop_at, hops_by_link, look_at, look_by, look_of, outcome_look};

use crate::arrow::{Arrow, Look};
use hsr_finished_run::Closed;
use hsr_frame::{Cause, NoMemory};
use hsr_node::Outcome;
use hsr_timeline::{Hop, Shown, Spot, Stamp, link_hops, stamp_at};
use std::alloc::Global;

/// Puts the hops of one more link last.
fn add_link(links: &mut Vec<Vec<Hop>>, hops: Vec<Hop>) -> Result<(), NoMemory>
    ensures { OnOk result (links.new.items ≡ links.old.items ++ hops ∷ []) }
{
    links.push(hops)?;
    Ok(())
}

/// The hops of a run, link by link.
pub(crate) fn hops_by_link<const C: usize>(
    alloc: Global,
    closed: &Closed<C>,
) -> Result<Vec<Vec<Hop>>, NoMemory>
    ensures { IfOk result (λ hops. lists_of hops.items ≡ hops_by_link closed.now.run
        (length closed.now.run.links)) }
{
    let mut links = Vec::new(alloc);
    for link in 0..closed.topology().links().len() {
        add_link(&mut links, link_hops(alloc, closed, link)?)?;
    }
    Ok(links)
}

/// The hop of a row.
fn hop_at(hops: &[Vec<Hop>], shown: &Shown) -> Option<Hop>
    ensures { result ≡ hop_at (lists_of hops.now) shown.now }
{
    match hops.get(shown.link) {
        Some(link) => link.get(shown.number).copied(),
        None => None,
    }
}

/// What became of an arrival.
fn look_by(up: bool, cause: Cause) -> Look
    ensures { result ≡ look_by up cause }
{
    match cause {
        // First, since what is taken up may be sent on too.
        _ if up => Look::TakenUp,
        Cause::Passed => Look::SentOn,
        Cause::Duplicate => Look::Again,
        Cause::Returned => Look::Home,
        _ => Look::Refused,
    }
}

/// What became of the copy that an entry judged.
fn outcome_look(outcome: Outcome) -> Look
    ensures { result ≡ outcome_look outcome }
{
    match outcome {
        Outcome::Judged { up, cause, .. } => look_by(up, cause),
        _ => Look::Refused,
    }
}

/// What became of the copy that the entry at a place judged.
fn look_at<const C: usize>(closed: &Closed<C>, judged: Option<Spot>) -> Look
    ensures { result ≡ look_at closed.now.run judged }
{
    match judged {
        Some(spot) if spot.node < closed.topology().places().len() => {
            match closed.entries(spot.node).get(spot.place) {
                Some(entry) => outcome_look(entry.outcome),
                None => Look::Refused,
            }
        }
        _ => Look::Refused,
    }
}

/// What became of a copy.
fn look_of<const C: usize>(closed: &Closed<C>, is_lost: bool, judged: Option<Spot>) -> Look
    ensures { result ≡ look_of closed.now.run is_lost judged }
{
    if is_lost {
        Look::Lost
    } else {
        look_at(closed, judged)
    }
}

/// The stamp of an entry, if there is one.
fn stamp_if(stamps: &[Vec<Stamp>], spot: Option<Spot>) -> Option<Stamp>
    ensures { result ≡ option_and_then (at_spot (lists_of stamps.now)) spot }
{
    match spot {
        Some(spot) => stamp_at(stamps, spot),
        None => None,
    }
}

/// The arrow of a row.
fn arrow_of<const C: usize>(
    closed: &Closed<C>,
    hops: &[Vec<Hop>],
    stamps: &[Vec<Stamp>],
    shown: &Shown,
) -> Arrow
    ensures { result ≡ arrow_of closed.now.run (lists_of hops.now)
        (at_spot (lists_of stamps.now)) shown.now }
{
    let (passed, judged) = match hop_at(hops, shown) {
        Some(hop) => (hop.passed, hop.judged),
        None => (None, None),
    };
    Arrow {
        row: *shown,
        passed,
        start: stamp_if(stamps, passed),
        judged,
        look: look_of(closed, shown.is_lost, judged),
    }
}

/// The arrows of rows, in their order.
pub(crate) fn arrows<const C: usize>(
    alloc: Global,
    closed: &Closed<C>,
    hops: &[Vec<Hop>],
    stamps: &[Vec<Stamp>],
    rows: &[Shown],
) -> Result<Vec<Arrow>, NoMemory>
    ensures { IfOk result (λ list. list.items ≡ map (arrow_of closed.now.run (lists_of hops.now)
        (at_spot (lists_of stamps.now))) rows.now) }
{
    let mut list = Vec::new(alloc);
    for row in rows {
        list.push(arrow_of(closed, hops, stamps, row))?;
    }
    Ok(list)
}
