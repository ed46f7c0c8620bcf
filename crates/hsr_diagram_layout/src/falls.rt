//! Between which rows links are down, and where nodes go off and come on.
use crate::columns::{BESIDE, Columns};
use crate::rows::Stamps;
use crate::shades::is_among;
use crate::shelves::{Foot, Shelves, Side};
use crate::widths::{COPY, width_of};
use hsr_diagram::{Arrow, Look};
use hsr_diagram_text::{change_word, done_words, switch_word};
use hsr_downs::{Change, Down, Switch};
use hsr_finished_run::{Closed, first_places, next_place};
use hsr_frame::NoMemory;
use hsr_link::Fate;
use hsr_svg::Anchor;
use hsr_timeline::{Spot, Stamp, StoryFault, entry_stamps, stamp_at};
use std::alloc::Global;

/// A change of a link: the first row behind it, the number of all rows where none is; and the shelf of its mark.
#[derive(Clone, Copy)]
pub(crate) struct Edge {
    pub row: usize,
    pub shelf: u64,
}

/// The time in which a link is down, from edge to edge.
#[derive(Clone, Copy)]
pub(crate) struct Fall {
    pub cut: Edge,
    pub end: Option<Edge>,
}

/// The mark of a node on one of its lines, by the number of the switch and that of the line; and where it stands.
#[derive(Clone, Copy)]
pub(crate) struct Flag {
    pub number: usize,
    pub line: usize,
    pub x: u64,
    pub anchor: Anchor,
    pub edge: Edge,
}

/// The times in which links are down, and the marks of nodes.
#[derive(Drop)]
pub(crate) struct Falls {
    pub falls: Vec<Fall>,
    pub flags: Vec<Flag>,
}

/// What is told of a run's links and nodes.
#[derive(Clone, Copy)]
pub(crate) struct Told<'a> {
    pub downs: &'a [Down],
    pub switches: &'a [Switch],
}

// ---- stamps

/// The place of the main worker's next entry of a node, behind those before a place, which is moved on.
fn main_place<const C: usize>(
    closed: &Closed<C>,
    next: &mut Vec<usize>,
    node: usize,
) -> Option<usize> {
    if node >= closed.topology().places().len() || node >= next.len() {
        return None;
    }
    // 0 is the main worker.
    let Some(place) = next_place(closed.entries(node), 0, next[node]) else {
        return None;
    };
    next[node] = place.saturating_add(1);
    Some(place)
}

/// The stamps of all entries. A run that is drawn has them: its rows have an order.
fn stamps_of_entries<const C: usize>(
    alloc: Global,
    closed: &Closed<C>,
) -> Result<Vec<Vec<Stamp>>, NoMemory> {
    match entry_stamps(alloc, closed) {
        Ok(stamps) => Ok(stamps),
        Err(StoryFault::Circle) => Ok(Vec::new(alloc)),
        Err(StoryFault::NoMemory) => Err(NoMemory),
    }
}

/// When each thing took place that is planned.
fn planned_stamps<const C: usize>(
    alloc: Global,
    closed: &Closed<C>,
) -> Result<Vec<Option<Stamp>>, NoMemory> {
    let stamps = stamps_of_entries(alloc, closed)?;
    let mut next = first_places(alloc, closed.topology().places().len())?;
    let mut list = Vec::new(alloc);
    for planned in closed.plan() {
        let node = planned.node;
        let stamp = match main_place(closed, &mut next, node) {
            Some(place) => stamp_at(stamps.as_slice(), Spot { node, place }),
            None => None,
        };
        list.push(stamp)?;
    }
    Ok(list)
}

// ---- edges

/// The stamp of what is planned at an index, if there is such an index.
fn stamp_of(planned: &[Option<Stamp>], index: Option<usize>) -> Option<Stamp> {
    let index = index?;
    match planned.get(index) {
        Some(Some(stamp)) => Some(*stamp),
        _ => None,
    }
}

/// Whether the copy of an arrow was lost since a link was down.
fn met_down<const C: usize>(closed: &Closed<C>, arrow: &Arrow, link: usize) -> bool {
    if arrow.row.link != link || arrow.look != Look::Lost {
        return false;
    }
    match closed.rows_at(link).get(arrow.row.number) {
        Some(row) => matches!(row.fate, Fate::LostDown | Fate::LostCut),
        None => false,
    }
}

/// The first row that stands behind a change: the first of a later moment, or that of what is planned next.
fn row_behind(stamps: &Stamps, planned: &[Option<Stamp>], change: &Change) -> usize {
    let later = stamps.first_after(change.moment);
    match stamp_of(planned, Some(change.planned)) {
        // A change stands before what is planned next, and before all of a later moment.
        Some(stamp) => later.min(stamps.first_since(stamp)),
        None => later,
    }
}

/// The first row at the moment of a cut, since what was planned before it, from which a copy was put that met the link
/// down; or else one given.
fn row_of_cut<const C: usize>(
    closed: &Closed<C>,
    grounds: &Grounds<'_>,
    change: &Change,
    row: usize,
) -> usize {
    // A lost copy tells that the link was down before it. Of other copies at this moment neither text says what came first.
    let since = stamp_of(grounds.planned, change.planned.checked_sub(1));
    let mut row = row;
    for arrow in grounds.arrows {
        if let Some(start) = arrow.start
            && start.moment == change.moment
            && !since.is_some_and(|since| start.is_earlier(since))
            && met_down(closed, arrow, change.link)
        {
            row = row.min(grounds.stamps.row_of(Some(start)));
        }
    }
    row
}

/// Where a mark before a row stands; below the last row, where none stands behind it.
fn foot_before(stamps: &Stamps, row: usize, x: u64, anchor: Anchor) -> Foot {
    let (row, side) = if row < stamps.len() {
        (row, Side::Above)
    } else {
        (stamps.len().saturating_sub(1), Side::Below)
    };
    Foot {
        row,
        side,
        x,
        anchor,
    }
}

/// Where the mark of a change begins, beside the left line of its lane.
fn change_foot(stamps: &Stamps, columns: &Columns, link: usize, row: usize) -> Foot {
    let x = columns.strip_of(link).left.saturating_add(BESIDE);
    foot_before(stamps, row, x, Anchor::Start)
}

/// What of a sheet is needed to find edges.
#[derive(Clone, Copy)]
struct Grounds<'a> {
    stamps: &'a Stamps,
    columns: &'a Columns,
    moments: &'a [u64],
    planned: &'a [Option<Stamp>],
    arrows: &'a [Arrow],
}

/// The first row behind a change, from which a copy met a link that it cuts.
fn row_of_change<const C: usize>(
    closed: &Closed<C>,
    grounds: &Grounds<'_>,
    change: &Change,
) -> usize {
    let behind = row_behind(grounds.stamps, grounds.planned, change);
    if change.is_cut {
        row_of_cut(closed, grounds, change, behind)
    } else {
        behind
    }
}

/// The edge of a change, with its mark on a shelf, if it has one.
fn edge_of<const C: usize>(
    alloc: Global,
    closed: &Closed<C>,
    grounds: &Grounds<'_>,
    shelves: &mut Shelves,
    change: &Change,
    is_marked: bool,
) -> Result<Edge, NoMemory> {
    let row = row_of_change(closed, grounds, change);
    if !is_marked || !is_among(grounds.moments, change) {
        return Ok(Edge { row, shelf: 0 });
    }
    let words = done_words(alloc, change_word(change.is_cut), change.moment)?;
    let foot = change_foot(grounds.stamps, grounds.columns, change.link, row);
    let shelf = shelves.put(foot, width_of(words.as_slice(), COPY))?;
    Ok(Edge { row, shelf })
}

/// The edges of the time in which a link is down.
fn fall_of<const C: usize>(
    alloc: Global,
    closed: &Closed<C>,
    grounds: &Grounds<'_>,
    shelves: &mut Shelves,
    down: &Down,
) -> Result<Fall, NoMemory> {
    let cut = edge_of(alloc, closed, grounds, shelves, &down.cut, true)?;
    let end = match &down.end {
        Some(change) => Some(edge_of(alloc, closed, grounds, shelves, change, !change.is_cut)?),
        None => None,
    };
    Ok(Fall { cut, end })
}

/// The edges of all times in which links are down, with their marks on shelves.
fn edges_of<const C: usize>(
    alloc: Global,
    closed: &Closed<C>,
    grounds: &Grounds<'_>,
    shelves: &mut Shelves,
    downs: &[Down],
) -> Result<Vec<Fall>, NoMemory> {
    let mut falls = Vec::new(alloc);
    for down in downs {
        falls.push(fall_of(alloc, closed, grounds, shelves, down)?)?;
    }
    Ok(falls)
}

// ---- nodes

/// Puts the mark of a node on its shelf, on the line that has a number.
fn put_flag(
    grounds: &Grounds<'_>,
    shelves: &mut Shelves,
    flags: &mut Vec<Flag>,
    number: usize,
    line: usize,
    row: usize,
    width: u64,
) -> Result<(), NoMemory> {
    let (x, anchor) = grounds.columns.beside(line, width);
    let foot = foot_before(grounds.stamps, row, x, anchor);
    let shelf = shelves.put(foot, width)?;
    flags.push(Flag {
        number,
        line,
        x,
        anchor,
        edge: Edge { row, shelf },
    })?;
    Ok(())
}

/// Puts the marks of a node that goes off or comes on, one on each of its lines, where its change is marked.
fn put_flags<const C: usize>(
    alloc: Global,
    closed: &Closed<C>,
    grounds: &Grounds<'_>,
    shelves: &mut Shelves,
    flags: &mut Vec<Flag>,
    number: usize,
    switch: &Switch,
) -> Result<(), NoMemory> {
    let change = &switch.change;
    if !is_among(grounds.moments, change) {
        return Ok(());
    }
    let row = row_of_change(closed, grounds, change);
    let words = done_words(alloc, switch_word(switch.is_off), change.moment)?;
    let width = width_of(words.as_slice(), COPY);
    for (line, node) in grounds.columns.nodes.as_slice().iter().enumerate() {
        if *node == switch.node {
            put_flag(grounds, shelves, flags, number, line, row, width)?;
        }
    }
    Ok(())
}

/// The marks of all nodes that go off or come on, on shelves.
fn flags_of<const C: usize>(
    alloc: Global,
    closed: &Closed<C>,
    grounds: &Grounds<'_>,
    shelves: &mut Shelves,
    switches: &[Switch],
) -> Result<Vec<Flag>, NoMemory> {
    let mut flags = Vec::new(alloc);
    for (number, switch) in switches.iter().enumerate() {
        put_flags(alloc, closed, grounds, shelves, &mut flags, number, switch)?;
    }
    Ok(flags)
}

// ---- all

/// The edges of all times in which links are down, and the marks of nodes, with all marks on shelves.
pub(crate) fn falls_of<const C: usize>(
    alloc: Global,
    closed: &Closed<C>,
    told: Told<'_>,
    arrows: &[Arrow],
    stamps: &Stamps,
    columns: &Columns,
    moments: &[u64],
    shelves: &mut Shelves,
) -> Result<Falls, NoMemory> {
    // Without a cut no node goes off either, so no stamps are needed.
    if told.downs.is_empty() {
        return Ok(Falls {
            falls: Vec::new(alloc),
            flags: Vec::new(alloc),
        });
    }
    let planned = planned_stamps(alloc, closed)?;
    let grounds = Grounds {
        stamps,
        columns,
        moments,
        planned: planned.as_slice(),
        arrows,
    };
    let falls = edges_of(alloc, closed, &grounds, shelves, told.downs)?;
    let flags = flags_of(alloc, closed, &grounds, shelves, told.switches)?;
    Ok(Falls { falls, flags })
}
