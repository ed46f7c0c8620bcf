//! On which side of its loop each node stands. The boxes that are shared with children stand on the far side, those that are shared with
//! the parent on the near one, and what stands between two of them in the order of the loop stands there too.
use crate::measure::{RADIUS, count};
use crate::runs::{begin_of, ends_of, keep_longest};
use crate::scale::{Scale, Scales};
use crate::stops::{Joint, Loop, Side, Stop, begun_at, reversed, stops_at};
use crate::tree::{Stands, parents_of};
use hsr_frame::NoMemory;
use std::alloc::Global;

/// Where sides begin, clockwise from the side on which the first stop stands.
#[derive(Clone, Copy)]
struct Cuts {
    first: Side,
    second: usize,
    third: usize,
    fourth: usize,
}

/// The stops of a loop, the box first that is shared with its parent and lies lowest.
#[derive(Drop)]
struct Facing {
    stops: Vec<Stop>,
    /// How many of them stand on the near side.
    near: usize,
    /// Whether the boxes stand in another order than on the parent.
    is_crossed: bool,
}

/// Says with which child each stop shares its box.
fn mark_children(
    stops: &mut Vec<Stop>,
    stands: &[Stands],
    parents: &[Option<usize>],
    number: usize,
) {
    for stop in stops.iter_mut() {
        if let Some(its) = stands.get(stop.node) {
            if let Some(other) = its.other(number) {
                if parents.get(other).copied() == Some(Some(number)) {
                    stop.joint = Joint::Child(other);
                }
            }
        }
    }
}

/// Puts each stop on its side.
fn set_sides(stops: &mut Vec<Stop>, cuts: Cuts) {
    for (at, stop) in stops.iter_mut().enumerate() {
        stop.side = if at < cuts.second {
            cuts.first
        } else if at < cuts.third {
            cuts.first.next()
        } else if at < cuts.fourth {
            cuts.first.next().next()
        } else {
            cuts.first.next().next().next()
        };
    }
}

/// How many of the stops that are left stand on the next side and on the one that lies opposite to the first, of which each has so many.
fn balanced(left: usize, first: usize) -> (usize, usize) {
    let mut opposite = if left < 2 {
        left
    } else {
        left.saturating_sub(2).min(first.saturating_sub(1).max(1))
    };
    let others = left.saturating_sub(opposite);
    if others % 2 == 1 && others > 1 && opposite > 0 {
        opposite = opposite.saturating_sub(1);
    }
    let others = left.saturating_sub(opposite);
    (others.saturating_add(1) / 2, opposite)
}

/// The sides where the first so many stops stand on one, and the others go evenly to the rest.
fn evenly(stops: usize, first: Side, size: usize) -> Cuts {
    let (next, opposite) = balanced(stops.saturating_sub(size), size);
    let third = size.saturating_add(next);
    Cuts {
        first,
        second: size,
        third,
        fourth: third.saturating_add(opposite),
    }
}

/// How far the proportions of a loop with so many stops above and at each side are from those of its room, as a factor.
fn misfit(scale: Scale, top: usize, side: usize) -> f64 {
    let width = count(top) * scale.pitch.x + 2.0 * RADIUS;
    let height = count(side.max(1)) * scale.pitch.y + 2.0 * RADIUS;
    let off = width / height / scale.proportion();
    if off < 1.0 { 1.0 / off } else { off }
}

/// How many of the stops of a loop by itself stand above, where so many stand at each side.
fn above(stops: usize, side: usize) -> usize {
    stops
        .saturating_sub(side.saturating_mul(2))
        .saturating_add(1)
        / 2
}

/// The sides of a loop by itself: so many nodes on each that it is about as wide as its room.
fn alone(scale: Scale, stops: usize) -> Cuts {
    let mut best = 0;
    for side in 0..stops / 2 {
        if misfit(scale, above(stops, side), side) < misfit(scale, above(stops, best), best) {
            best = side;
        }
    }
    let top = above(stops, best);
    Cuts {
        first: Side::Start,
        second: top,
        third: top.saturating_add(best),
        fourth: stops.saturating_sub(best),
    }
}

/// Places the stops of a root.
fn shape_root(alloc: Global, scale: Scale, stops: &[Stop]) -> Result<Vec<Stop>, NoMemory> {
    let begin = begin_of(alloc, stops)?;
    let mut turned = begun_at(alloc, stops, begin)?;
    keep_longest(alloc, &mut turned)?;
    let first = match ends_of(turned.as_slice()) {
        Some((first, _)) => first,
        None => 0,
    };
    let mut turned = begun_at(alloc, turned.as_slice(), first)?;
    let cuts = match ends_of(turned.as_slice()) {
        Some((_, last)) => evenly(turned.len(), Side::Far, last.saturating_add(1)),
        None => alone(scale, turned.len()),
    };
    set_sides(&mut turned, cuts);
    Ok(turned)
}

/// Whether a node is among others.
fn is_among(nodes: &[usize], node: usize) -> bool {
    nodes.iter().any(|it| *it == node)
}

/// The place of a node among stops; 0 where it isn't there.
fn place_of(stops: &[Stop], node: usize) -> usize {
    stops.iter().position(|stop| stop.node == node).unwrap_or(0)
}

/// Whether the boxes among the first so many stops stand in another order than these ones backwards.
fn is_crossed(stops: &[Stop], near: usize, boxes: &[usize]) -> bool {
    let mut left = boxes.len();
    for stop in stops.iter().take(near) {
        if is_among(boxes, stop.node) {
            left = left.saturating_sub(1);
            if boxes.get(left).copied() != Some(stop.node) {
                return true;
            }
        }
    }
    left != 0
}

/// The stops of a loop from the last to the first of these boxes on, in its own order.
fn facing_on(alloc: Global, stops: &[Stop], boxes: &[usize]) -> Result<Facing, NoMemory> {
    let last = boxes.last().copied().unwrap_or(0);
    let first = boxes.first().copied().unwrap_or(0);
    let stops = begun_at(alloc, stops, place_of(stops, last))?;
    let near = place_of(stops.as_slice(), first).saturating_add(1);
    let is_crossed = is_crossed(stops.as_slice(), near, boxes);
    Ok(Facing {
        stops,
        near,
        is_crossed,
    })
}

/// The same, turned over.
fn facing_back(alloc: Global, stops: &[Stop], boxes: &[usize]) -> Result<Facing, NoMemory> {
    let stops = reversed(alloc, stops)?;
    facing_on(alloc, stops.as_slice(), boxes)
}

/// The one that agrees with the order of the boxes on the parent, or has fewer stops on the near side.
fn better(a: Facing, b: Facing) -> Facing {
    let is_first = if a.is_crossed == b.is_crossed {
        a.near <= b.near
    } else {
        b.is_crossed
    };
    if is_first { a } else { b }
}

/// The stops of a loop in its own order or turned over, whichever fits these boxes.
fn best_facing(alloc: Global, stops: &[Stop], boxes: &[usize]) -> Result<Facing, NoMemory> {
    let own = facing_on(alloc, stops, boxes)?;
    let back = facing_back(alloc, stops, boxes)?;
    Ok(better(own, back))
}

/// Says which of the stops on the near side share their boxes with the parent.
fn mark_near(stops: &mut Vec<Stop>, near: usize, boxes: &[usize]) {
    for stop in stops.iter_mut().take(near) {
        stop.joint = if is_among(boxes, stop.node) {
            Joint::Parent
        } else {
            Joint::Free
        };
    }
}

/// Places the stops of a child that shares boxes with its parent.
fn shape_child(alloc: Global, facing: Facing, boxes: &[usize]) -> Result<Vec<Stop>, NoMemory> {
    let Facing {
        mut stops,
        near,
        is_crossed: _,
    } = facing;
    mark_near(&mut stops, near, boxes);
    keep_longest(alloc, &mut stops)?;
    let cuts = match ends_of(stops.as_slice()) {
        Some((first, last)) => Cuts {
            first: Side::Near,
            second: near,
            third: first,
            fourth: last.saturating_add(1),
        },
        None => evenly(stops.len(), Side::Near, near),
    };
    set_sides(&mut stops, cuts);
    Ok(stops)
}

/// The boxes that a parent shares with a child, in the order of its far side.
fn boxes_for(alloc: Global, stops: &[Stop], child: usize) -> Result<Vec<usize>, NoMemory> {
    let mut boxes = Vec::new(alloc);
    for stop in stops {
        if stop.joint == Joint::Child(child) {
            boxes.push(stop.node)?;
        }
    }
    Ok(boxes)
}

/// Frees the boxes of a child that stand between its first and its last one. They are drawn twice.
fn free_inner(stops: &mut Vec<Stop>, boxes: &[usize], child: usize) {
    let first = boxes.first().copied();
    let last = boxes.last().copied();
    for stop in stops.iter_mut() {
        let is_outer = Some(stop.node) == first || Some(stop.node) == last;
        if stop.joint == Joint::Child(child) && !is_outer {
            stop.joint = Joint::Free;
        }
    }
}

/// Frees inner boxes of a child on its parent, where they stand in another order there.
fn uncross(
    alloc: Global,
    loops: &mut Vec<Loop>,
    parent: usize,
    child: usize,
) -> Result<(), NoMemory> {
    let boxes = boxes_for(alloc, stops_at(loops.as_slice(), parent), child)?;
    let stops = stops_at(loops.as_slice(), child);
    let is_crossed = best_facing(alloc, stops, boxes.as_slice())?.is_crossed;
    if is_crossed {
        if let Some(it) = loops.get_mut(parent) {
            free_inner(&mut it.stops, boxes.as_slice(), child);
        }
    }
    Ok(())
}

/// The stops of a loop on their sides, where these boxes are shared with its parent.
fn shaped(
    alloc: Global,
    scale: Scale,
    stops: &[Stop],
    boxes: &[usize],
) -> Result<Vec<Stop>, NoMemory> {
    if boxes.is_empty() {
        return shape_root(alloc, scale, stops);
    }
    let facing = best_facing(alloc, stops, boxes)?;
    shape_child(alloc, facing, boxes)
}

/// Puts the stops of a loop on their sides. Those of its parent are placed already.
fn shape(
    alloc: Global,
    scale: Scale,
    loops: &mut Vec<Loop>,
    parent: Option<usize>,
    number: usize,
) -> Result<(), NoMemory> {
    let stops = match parent {
        Some(parent) => {
            uncross(alloc, loops, parent, number)?;
            let boxes = boxes_for(alloc, stops_at(loops.as_slice(), parent), number)?;
            shaped(
                alloc,
                scale,
                stops_at(loops.as_slice(), number),
                boxes.as_slice(),
            )?
        }
        None => shape_root(alloc, scale, stops_at(loops.as_slice(), number))?,
    };
    if let Some(it) = loops.get_mut(number) {
        it.stops = stops;
    }
    Ok(())
}

/// Says which boxes a loop shares with its children.
fn mark(loops: &mut Vec<Loop>, stands: &[Stands], parents: &[Option<usize>], number: usize) {
    if let Some(it) = loops.get_mut(number) {
        mark_children(&mut it.stops, stands, parents, number);
    }
}

/// Puts the stops of all loops on their sides, parents first.
pub(crate) fn shape_all(
    alloc: Global,
    scales: Scales,
    loops: &mut Vec<Loop>,
    stands: &[Stands],
) -> Result<(), NoMemory> {
    let parents = parents_of(alloc, loops.as_slice())?;
    for (number, parent) in parents.iter().enumerate() {
        mark(loops, stands, parents.as_slice(), number);
        let scale = scales.at(loops.as_slice(), number);
        shape(alloc, scale, loops, *parent, number)?;
    }
    Ok(())
}
