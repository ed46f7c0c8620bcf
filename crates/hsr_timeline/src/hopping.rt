//! The hops of a run.
ghost use Rattle.std.specs.Prelude.{◌≡◌, ◌<◌, ◌∷◌, [], ◌++◌, length, IfOk, OnOk};
ghost use Rattle.hsr_link.specs.declared.row.Dir.TheVariants.{Forth, Back};
ghost use Rattle.hsr_run_laws.specs.Run.{rows_of};
ghost use Rattle.hsr_timeline.specs.Hops.{hop_of, hops, hops_from, passed_places, spot_at};
ghost use Rattle.hsr_timeline.specs.Sides.{IsSide};

use crate::copies::{came_at, passed_at};
use crate::hop::Hop;
use crate::origin::Spot;
use crate::partners::partners;
use crate::walk::places_in_order;
use hsr_finished_run::Closed;
use hsr_frame::NoMemory;
use hsr_link::{Dir, Row};
use hsr_run_index::Passage;
use std::alloc::Global;

/// One direction of a link: the nodes at its ends; and for each row of the link, if it is of this direction, which entry passed its
/// copy, and which judged it.
#[derive(Drop)]
pub(crate) struct Side {
    from: usize,
    to: usize,
    passed: Vec<Option<usize>>,
    judged: Vec<Option<usize>>,
}

/// The place of the entry that passed the copy of each row of a link, in the record of the node at the end from which the copies
/// of a direction come; none where a row is of the other direction. `NoMemory` if allocation fails.
pub fn passed_places<const C: usize>(
    alloc: Global,
    closed: &Closed<C>,
    link: usize,
    dir: Dir,
) -> Result<Vec<Option<usize>>, NoMemory>
    requires { link < length closed.now.run.links }
    ensures { IfOk result (λ places. places.items ≡ passed_places closed.now.run link dir) }
{
    let from = closed.from_end(link, dir);
    let rows = closed.rows(link);
    // A world's rows stand in the order of its records, so a map is made only where this fails.
    if let Some(places) = places_in_order(alloc, closed, from, dir, rows)? {
        return Ok(places);
    }
    let sent = passed_at(alloc, closed, from)?;
    let places = partners(alloc, sent.as_slice(), Passage::Put, dir, rows)?;
    Ok(places)
}

/// A direction of a link.
fn direction<const C: usize>(
    alloc: Global,
    closed: &Closed<C>,
    link: usize,
    dir: Dir,
) -> Result<Side, NoMemory>
    requires { link < length closed.now.run.links }
    ensures { IfOk result (λ side. IsSide closed.now.run link dir side) }
{
    let from = closed.from_end(link, dir);
    let to = closed.to_end(link, dir);
    let rows = closed.rows(link);
    let passed = passed_places(alloc, closed, link, dir)?;
    let came = came_at(alloc, closed, to)?;
    let judged = partners(alloc, came.as_slice(), Passage::Taken, dir, rows)?;
    Ok(Side {
        from: from.node,
        to: to.node,
        passed,
        judged,
    })
}

/// The entry at a place of a node's record, if there is a place.
fn spot_at(node: usize, place: Option<usize>) -> Option<Spot>
    ensures { result ≡ spot_at node place }
{
    match place {
        Some(place) => Some(Spot { node, place }),
        None => None,
    }
}

impl Side {
    ghost use Rattle.std.specs.Prelude.{slice_index_or, None};

    /// The hop of a row of this direction.
    fn hop(&self, link: usize, number: usize) -> Hop
        requires passed { number < length self.now.passed.items }
        requires judged { number < length self.now.judged.items }
        ensures { result ≡ record {
          link = link;
          number = number;
          passed = spot_at self.now.from (slice_index_or self.now.passed.items number None);
          judged = spot_at self.now.to (slice_index_or self.now.judged.items number None);
        } }
    {
        Hop {
            link,
            number,
            passed: spot_at(self.from, self.passed[number]),
            judged: spot_at(self.to, self.judged[number]),
        }
    }
}

/// The hop of a row.
fn hop_of<const C: usize>(
    closed: &Closed<C>,
    link: usize,
    number: usize,
    row: &Row,
    forth: &Side,
    back: &Side,
) -> Hop
    requires below { number < length (rows_of closed.now.run link) }
    requires forth { IsSide closed.now.run link Forth forth.now }
    requires back { IsSide closed.now.run link Back back.now }
    ensures { result ≡ hop_of closed.now.run link number row.now }
{
    match row.dir {
        Dir::Forth => forth.hop(link, number),
        Dir::Back => back.hop(link, number),
    }
}

/// Lists the hops of a link.
fn list_link<const C: usize>(
    alloc: Global,
    hops: &mut Vec<Hop>,
    closed: &Closed<C>,
    link: usize,
) -> Result<(), NoMemory>
    requires { link < length closed.now.run.links }
    ensures { OnOk result (hops.new.items ≡ hops.old.items
        ++ hops_from closed.now.run link 0 (rows_of closed.now.run link)) }
{
    // Both directions are gathered before the rows are walked, so that each row costs one look.
    let forth = direction(alloc, closed, link, Dir::Forth)?;
    let back = direction(alloc, closed, link, Dir::Back)?;
    let rows = closed.rows(link);
    for (j, row) in rows.iter().enumerate() {
        hops.push(hop_of(closed, link, j, row, &forth, &back))?;
    }
    Ok(())
}

/// The hops of the rows of one link, in their order. `NoMemory` if allocation fails.
pub fn link_hops<const C: usize>(
    alloc: Global,
    closed: &Closed<C>,
    link: usize,
) -> Result<Vec<Hop>, NoMemory>
    requires { link < length closed.now.run.links }
    ensures { IfOk result (λ list. list.items
        ≡ hops_from closed.now.run link 0 (rows_of closed.now.run link)) }
{
    let mut list = Vec::new(alloc);
    list_link(alloc, &mut list, closed, link)?;
    Ok(list)
}

/// The hops of a finished run, by link, then by index on the link: for each copy that was put on a link, the entry that passed it, and
/// the entry that judged it. Copies that are equal in send and octets are told apart by their order: the k-th that was put is the
/// k-th that was passed, and the k-th that was taken is the k-th that came. `NoMemory` if allocation fails.
pub fn hops<const C: usize>(alloc: Global, closed: &Closed<C>) -> Result<Vec<Hop>, NoMemory>
    ensures { IfOk result (λ list. list.items ≡ hops closed.now.run) }
{
    let mut hops = Vec::new(alloc);
    for link in 0..closed.topology().links().len() {
        list_link(alloc, &mut hops, closed, link)?;
    }
    Ok(hops)
}
