//! Loops that share QuadBoxes as trees: each loop but a root has one parent.
use crate::stops::{Loop, Oblong, Room, Stop, stops_at};
use hsr_frame::NoMemory;
use std::alloc::Global;

/// The loops on which a node stands: a QuadBox on two at most, all others on one.
#[derive(Clone, Copy)]
pub(crate) struct Stands {
    pub first: Option<usize>,
    pub second: Option<usize>,
}

impl Stands {
    const NONE: Stands = Stands {
        first: None,
        second: None,
    };

    /// The same with one more.
    fn with(self, number: usize) -> Stands {
        if self.first.is_none() {
            Stands {
                first: Some(number),
                second: self.second,
            }
        } else {
            Stands {
                first: self.first,
                second: Some(number),
            }
        }
    }

    /// Whether a node stands on both loops.
    fn joins(self, a: usize, b: usize) -> bool {
        (self.first == Some(a) && self.second == Some(b))
            || (self.first == Some(b) && self.second == Some(a))
    }

    /// The other loop than this one.
    pub(crate) fn other(self, number: usize) -> Option<usize> {
        if self.first == Some(number) {
            self.second
        } else {
            self.first
        }
    }
}

/// A loop in the order of the tree, with the place of its parent in that order.
#[derive(Clone, Copy)]
struct Branch {
    number: usize,
    parent: Option<usize>,
    group: usize,
    is_alone: bool,
}

/// Notes on which loop the nodes of its stops stand.
fn note_stops(stands: &mut Vec<Stands>, stops: &[Stop], number: usize) {
    for stop in stops {
        if let Some(its) = stands.get_mut(stop.node) {
            *its = its.with(number);
        }
    }
}

/// On which loops each of so many nodes stands.
pub(crate) fn stands_of(
    alloc: Global,
    loops: &[Loop],
    nodes: usize,
) -> Result<Vec<Stands>, NoMemory> {
    let mut stands = vec![in alloc; Stands::NONE; nodes]?;
    for (number, it) in loops.iter().enumerate() {
        note_stops(&mut stands, it.stops.as_slice(), number);
    }
    Ok(stands)
}

/// Whether a node stands on both loops.
fn are_beside(stands: &[Stands], a: usize, b: usize) -> bool {
    stands.iter().any(|its| its.joins(a, b))
}

/// How many others a loop shares nodes with.
fn neighbours(stands: &[Stands], loops: usize, number: usize) -> usize {
    (0..loops)
        .filter(|other| *other != number && are_beside(stands, number, *other))
        .count()
}

/// Whether a loop is among branches.
fn is_among(branches: &[Branch], number: usize) -> bool {
    branches.iter().any(|branch| branch.number == number)
}

/// Adds the loops that share nodes with the one at this place and weren't met.
fn add_children(
    stands: &[Stands],
    loops: usize,
    order: &mut Vec<Branch>,
    at: usize,
    number: usize,
) -> Result<(), NoMemory> {
    for other in 0..loops {
        if are_beside(stands, number, other) && !is_among(order.as_slice(), other) {
            order.push(Branch {
                number: other,
                parent: Some(at),
                group: 0,
                is_alone: false,
            })?;
        }
    }
    Ok(())
}

/// The loops that can be reached from one, breadth first.
fn reached(
    alloc: Global,
    stands: &[Stands],
    loops: usize,
    root: usize,
) -> Result<Vec<Branch>, NoMemory> {
    let mut order = Vec::new(alloc);
    order.push(Branch {
        number: root,
        parent: None,
        group: 0,
        is_alone: true,
    })?;
    for at in 0..loops {
        match order.get(at).copied() {
            Some(branch) => add_children(stands, loops, &mut order, at, branch.number)?,
            None => break,
        }
    }
    Ok(order)
}

/// The root of loops that hang together: the one with most neighbours where that is three or more, a backbone; else an end of the chain.
/// The lowest of several.
fn root_of(stands: &[Stands], loops: usize, members: &[Branch], first: usize) -> usize {
    let mut hub = (first, 0);
    let mut end = (first, usize::MAX);
    for branch in members {
        let count = neighbours(stands, loops, branch.number);
        if count > hub.1 || (count == hub.1 && branch.number < hub.0) {
            hub = (branch.number, count);
        }
        if count < end.1 || (count == end.1 && branch.number < end.0) {
            end = (branch.number, count);
        }
    }
    if hub.1 > 2 { hub.0 } else { end.0 }
}

/// Adds the branches of one more group.
fn add_branches(all: &mut Vec<Branch>, more: &[Branch], group: usize) -> Result<(), NoMemory> {
    let base = all.len();
    for branch in more {
        all.push(Branch {
            number: branch.number,
            parent: branch.parent.map(|at| at.saturating_add(base)),
            group,
            is_alone: more.len() < 2,
        })?;
    }
    Ok(())
}

/// Adds the group of a loop, if it isn't there.
fn add_group(
    alloc: Global,
    stands: &[Stands],
    loops: usize,
    all: &mut Vec<Branch>,
    number: usize,
) -> Result<(), NoMemory> {
    if is_among(all.as_slice(), number) {
        return Ok(());
    }
    let members = reached(alloc, stands, loops, number)?;
    let root = root_of(stands, loops, members.as_slice(), number);
    let order = reached(alloc, stands, loops, root)?;
    add_branches(all, order.as_slice(), number)
}

/// The order of loops, group by group, parents before their children.
fn order_of(alloc: Global, stands: &[Stands], loops: usize) -> Result<Vec<Branch>, NoMemory> {
    let mut all = Vec::new(alloc);
    for number in 0..loops {
        add_group(alloc, stands, loops, &mut all, number)?;
    }
    Ok(all)
}

/// The loop of a branch.
fn loop_of(alloc: Global, loops: &[Loop], branch: Branch) -> Result<Loop, NoMemory> {
    let mut stops = Vec::new(alloc);
    stops.extend_from_slice(stops_at(loops, branch.number))?;
    Ok(Loop {
        number: branch.number,
        group: branch.group,
        is_alone: branch.is_alone,
        parent: branch.parent,
        stops,
        room: Room::EMPTY,
        oblong: Oblong::EMPTY,
    })
}

/// The loops in the order of their trees, each with the place of its parent in that order.
pub(crate) fn ordered(alloc: Global, loops: &[Loop], nodes: usize) -> Result<Vec<Loop>, NoMemory> {
    let stands = stands_of(alloc, loops, nodes)?;
    let order = order_of(alloc, stands.as_slice(), loops.len())?;
    let mut trees = Vec::new(alloc);
    for branch in order.iter() {
        trees.push(loop_of(alloc, loops, *branch)?)?;
    }
    Ok(trees)
}

/// The parents of loops.
pub(crate) fn parents_of(alloc: Global, loops: &[Loop]) -> Result<Vec<Option<usize>>, NoMemory> {
    let mut parents = Vec::new(alloc);
    for it in loops {
        parents.push(it.parent)?;
    }
    Ok(parents)
}
