//! Where loops and their stops lie, from the roots down: a box that two loops share has one height on both.
use crate::measure::{Point, RADIUS, count};
use crate::scale::{Scale, Scales};
use crate::sizes::{Child, all_places, children_of, places_between};
use crate::stops::{Joint, Loop, Oblong, Room, Side, Stop, count_on, room_at, stops_at};
use hsr_frame::NoMemory;
use std::alloc::Global;

/// A stop of a side whose place is given, by its number on that side.
#[derive(Clone, Copy)]
struct Fixed {
    at: usize,
    along: f64,
}

/// A box that is shared with the parent, and how high it stands.
#[derive(Clone, Copy)]
struct Bridge {
    node: usize,
    along: f64,
}

/// From where to where the stops of a side go.
#[derive(Clone, Copy)]
struct Reach {
    begin: f64,
    end: f64,
}

/// The sides of a loop in its room.
fn oblong_in(room: Room) -> Oblong {
    Oblong {
        left: room.corner.x,
        top: room.corner.y + room.above,
        right: room.corner.x + room.width,
        bottom: room.corner.y + room.height - room.below,
    }
}

/// From where to where the stops of a side go, clockwise.
fn reach_of(oblong: Oblong, side: Side) -> Reach {
    match side {
        Side::Start => Reach {
            begin: oblong.left + RADIUS,
            end: oblong.right - RADIUS,
        },
        Side::Far => Reach {
            begin: oblong.top + RADIUS,
            end: oblong.bottom - RADIUS,
        },
        Side::End => Reach {
            begin: oblong.right - RADIUS,
            end: oblong.left + RADIUS,
        },
        Side::Near => Reach {
            begin: oblong.bottom - RADIUS,
            end: oblong.top + RADIUS,
        },
    }
}

/// Whether the place of a stop is given by a box that it shares.
fn is_fixed(stop: Stop) -> bool {
    stop.side.is_across() && stop.joint != Joint::Free
}

/// The stops of a side whose places are given.
fn fixed_on(alloc: Global, stops: &[Stop], side: Side) -> Result<Vec<Fixed>, NoMemory> {
    let mut fixed = Vec::new(alloc);
    for (at, stop) in stops.iter().filter(|stop| stop.side == side).enumerate() {
        if is_fixed(*stop) {
            fixed.push(Fixed {
                at,
                along: stop.along,
            })?;
        }
    }
    Ok(fixed)
}

/// The last given place before a stop.
fn fixed_before(fixed: &[Fixed], at: usize) -> Option<Fixed> {
    fixed.iter().rev().find(|it| it.at < at).copied()
}

/// The first given place behind a stop.
fn fixed_behind(fixed: &[Fixed], at: usize) -> Option<Fixed> {
    fixed.iter().find(|it| it.at > at).copied()
}

/// The middle of one of so many equal shares of a reach.
fn share(reach: Reach, at: f64, shares: f64) -> f64 {
    reach.begin + (reach.end - reach.begin) * (at + 0.5) / shares
}

/// The place of a stop among so many of a side: evenly between the given places around it, or the ends of the side.
fn place_among(reach: Reach, fixed: &[Fixed], at: usize, stops: usize) -> f64 {
    let here = count(at);
    let before = fixed_before(fixed, at);
    let behind = fixed_behind(fixed, at);
    match (before, behind) {
        (None, None) => share(reach, here, count(stops)),
        (None, Some(next)) => {
            let reach = Reach {
                begin: reach.begin,
                end: next.along,
            };
            share(reach, here, count(next.at))
        }
        (Some(last), None) => {
            let reach = Reach {
                begin: last.along,
                end: reach.end,
            };
            let first = count(last.at) + 1.0;
            share(reach, here - first, count(stops) - first)
        }
        (Some(last), Some(next)) => {
            let part = (here - count(last.at)) / (count(next.at) - count(last.at));
            last.along + (next.along - last.along) * part
        }
    }
}

/// Places the stops of a side whose places aren't given.
fn place_side(
    alloc: Global,
    stops: &mut Vec<Stop>,
    oblong: Oblong,
    side: Side,
) -> Result<(), NoMemory> {
    let reach = reach_of(oblong, side);
    let fixed = fixed_on(alloc, stops.as_slice(), side)?;
    let all = count_on(stops.as_slice(), side);
    let mut at = 0usize;
    for stop in stops.iter_mut() {
        if stop.side == side {
            if !is_fixed(*stop) {
                stop.along = place_among(reach, fixed.as_slice(), at, all);
            }
            at = at.saturating_add(1);
        }
    }
    Ok(())
}

/// Places the boxes that a loop shares with a child.
fn place_boxes(stops: &mut Vec<Stop>, child: usize, reach: Reach, between: &[usize]) {
    let places = count(all_places(between));
    let mut number = 0usize;
    let mut at = 0usize;
    for stop in stops.iter_mut() {
        if stop.joint == Joint::Child(child) {
            stop.along = share(reach, count(at), places);
            let more = between.get(number).copied().unwrap_or(0);
            at = at.saturating_add(more).saturating_add(1);
            number = number.saturating_add(1);
        }
    }
}

/// Places a child and the boxes that it shares with its parent.
fn place_child(
    alloc: Global,
    loops: &mut Vec<Loop>,
    parent: usize,
    child: usize,
    corner: Point,
) -> Result<(), NoMemory> {
    let between = places_between(alloc, loops.as_slice(), parent, child)?;
    if let Some(it) = loops.get_mut(child) {
        it.room.corner = corner;
    }
    let oblong = oblong_in(room_at(loops.as_slice(), child));
    let reach = reach_of(oblong, Side::Far);
    if let Some(it) = loops.get_mut(parent) {
        place_boxes(&mut it.stops, child, reach, between.as_slice());
    }
    Ok(())
}

/// How high children are together.
fn height_of(loops: &[Loop], children: &[Child]) -> f64 {
    let mut all = 0.0;
    for child in children {
        all += room_at(loops, child.number).height + child.gap;
    }
    all
}

/// Places the children of a loop, in the middle of its far side.
fn place_children(
    alloc: Global,
    scale: Scale,
    loops: &mut Vec<Loop>,
    parent: usize,
    oblong: Oblong,
) -> Result<(), NoMemory> {
    let children = children_of(alloc, scale, loops.as_slice(), parent)?;
    let height = height_of(loops.as_slice(), children.as_slice());
    let x = oblong.right + scale.between_loops();
    let mut y = oblong.top + (oblong.bottom - oblong.top - height) / 2.0;
    for child in children.iter() {
        place_child(alloc, loops, parent, child.number, Point::new(x, y))?;
        y += room_at(loops.as_slice(), child.number).height + child.gap;
    }
    Ok(())
}

/// The boxes that a loop shares with a child.
fn bridges_to(alloc: Global, stops: &[Stop], child: usize) -> Result<Vec<Bridge>, NoMemory> {
    let mut bridges = Vec::new(alloc);
    for stop in stops {
        if stop.joint == Joint::Child(child) {
            bridges.push(Bridge {
                node: stop.node,
                along: stop.along,
            })?;
        }
    }
    Ok(bridges)
}

/// Places the boxes that a loop shares with its parent.
fn place_near(stops: &mut Vec<Stop>, bridges: &[Bridge]) {
    for stop in stops.iter_mut() {
        if stop.joint == Joint::Parent {
            if let Some(bridge) = bridges.iter().find(|it| it.node == stop.node) {
                stop.along = bridge.along;
            }
        }
    }
}

/// Places the stops of a loop whose oblong is known, where these boxes are shared with its parent.
fn place_stops(
    alloc: Global,
    stops: &mut Vec<Stop>,
    oblong: Oblong,
    bridges: &[Bridge],
) -> Result<(), NoMemory> {
    place_near(stops, bridges);
    for side in [Side::Start, Side::Far, Side::End, Side::Near] {
        place_side(alloc, stops, oblong, side)?;
    }
    Ok(())
}

/// Places a loop's children, its stops and itself. Its room is placed already.
fn place(
    alloc: Global,
    scale: Scale,
    loops: &mut Vec<Loop>,
    number: usize,
) -> Result<(), NoMemory> {
    let oblong = oblong_in(room_at(loops.as_slice(), number));
    place_children(alloc, scale, loops, number, oblong)?;
    let parent = match loops.get(number) {
        Some(it) => it.parent.unwrap_or(usize::MAX),
        None => usize::MAX,
    };
    let bridges = bridges_to(alloc, stops_at(loops.as_slice(), parent), number)?;
    if let Some(it) = loops.get_mut(number) {
        it.oblong = oblong;
        place_stops(alloc, &mut it.stops, oblong, bridges.as_slice())?;
    }
    Ok(())
}

/// Places all loops, parents first. Roots stand at the origin.
pub(crate) fn place_all(
    alloc: Global,
    scales: Scales,
    loops: &mut Vec<Loop>,
) -> Result<(), NoMemory> {
    for number in 0..loops.len() {
        let scale = scales.at(loops.as_slice(), number);
        place(alloc, scale, loops, number)?;
    }
    Ok(())
}
