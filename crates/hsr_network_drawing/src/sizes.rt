//! How large loops are, from the leaves up: a parent is as high as its children together.
use crate::measure::{RADIUS, count};
use crate::scale::{Scale, Scales};
use crate::stops::{Joint, Loop, Room, Side, Stop, count_on, has_station_on, room_at, stops_at};
use hsr_frame::NoMemory;
use std::alloc::Global;

/// A child, and where the first and the last of its boxes stand among the stops of its parent.
#[derive(Clone, Copy)]
pub(crate) struct Child {
    pub number: usize,
    first: usize,
    last: usize,
    /// What lies between it and the child behind it.
    pub gap: f64,
}

/// How many stops stand between each two boxes of this kind.
fn between(alloc: Global, stops: &[Stop], joint: Joint) -> Result<Vec<usize>, NoMemory> {
    let mut counts = Vec::new(alloc);
    let mut since = None;
    for stop in stops {
        if stop.joint == joint {
            if let Some(since) = since {
                counts.push(since)?;
            }
            since = Some(0usize);
        } else if let Some(before) = since {
            since = Some(before.saturating_add(1));
        }
    }
    Ok(counts)
}

/// The number at a place from behind; 0 where there is none.
fn from_behind(counts: &[usize], at: usize) -> usize {
    counts
        .len()
        .checked_sub(at.saturating_add(1))
        .and_then(|place| counts.get(place).copied())
        .unwrap_or(0)
}

/// How many places lie between each two boxes that a loop shares with a child: as many as the fuller of both asks for.
pub(crate) fn places_between(
    alloc: Global,
    loops: &[Loop],
    parent: usize,
    child: usize,
) -> Result<Vec<usize>, NoMemory> {
    let mut places = between(alloc, stops_at(loops, parent), Joint::Child(child))?;
    let theirs = between(alloc, stops_at(loops, child), Joint::Parent)?;
    for (at, place) in places.iter_mut().enumerate() {
        // The near side of a child runs upwards, so its gaps come the other way round.
        *place = from_behind(theirs.as_slice(), at).max(*place);
    }
    Ok(places)
}

/// How many places there are with the boxes themselves.
pub(crate) fn all_places(between: &[usize]) -> usize {
    let mut places = 1usize;
    for more in between {
        places = places.saturating_add(*more).saturating_add(1);
    }
    places
}

/// Notes one more box of a child.
fn note_box(children: &mut Vec<Child>, number: usize, at: usize) -> Result<(), NoMemory> {
    for child in children.iter_mut() {
        if child.number == number {
            child.last = at;
            return Ok(());
        }
    }
    children.push(Child {
        number,
        first: at,
        last: at,
        gap: 0.0,
    })?;
    Ok(())
}

/// Notes the children with which a loop shares boxes, in their order on its far side.
fn note_boxes(children: &mut Vec<Child>, stops: &[Stop]) -> Result<(), NoMemory> {
    for (at, stop) in stops.iter().enumerate() {
        if let Joint::Child(number) = stop.joint {
            note_box(children, number, at)?;
        }
    }
    Ok(())
}

/// Notes the children all whose boxes are drawn twice.
fn note_others(children: &mut Vec<Child>, loops: &[Loop], parent: usize) -> Result<(), NoMemory> {
    let last = children.last().map(|child| child.last).unwrap_or(0);
    for (number, it) in loops.iter().enumerate() {
        if it.parent == Some(parent) && !children.iter().any(|child| child.number == number) {
            children.push(Child {
                number,
                first: last,
                last,
                gap: 0.0,
            })?;
        }
    }
    Ok(())
}

/// Says what lies between each two children: what stands on the parent's side there has to fit.
fn set_gaps(scale: Scale, children: &mut Vec<Child>) {
    let mut next: Option<Child> = None;
    for child in children.iter_mut().rev() {
        if let Some(next) = next {
            let stops = count(next.first.saturating_sub(child.last));
            child.gap = scale.between_children().max(stops * scale.pitch.y - RADIUS);
        }
        next = Some(*child);
    }
}

/// The children of a loop in the order in which they stand.
pub(crate) fn children_of(
    alloc: Global,
    scale: Scale,
    loops: &[Loop],
    parent: usize,
) -> Result<Vec<Child>, NoMemory> {
    let mut children = Vec::new(alloc);
    note_boxes(&mut children, stops_at(loops, parent))?;
    note_others(&mut children, loops, parent)?;
    set_gaps(scale, &mut children);
    Ok(children)
}

/// How high a child has to be for the boxes that it shares with its parent.
fn height_for(
    alloc: Global,
    scale: Scale,
    loops: &[Loop],
    parent: usize,
    child: usize,
) -> Result<f64, NoMemory> {
    let between = places_between(alloc, loops, parent, child)?;
    let room = room_at(loops, child);
    let places = count(all_places(between.as_slice()));
    let height = places * scale.pitch.y + 2.0 * RADIUS + room.above + room.below;
    Ok(height.max(room.height))
}

/// Makes a child so high.
fn raise(loops: &mut Vec<Loop>, number: usize, height: f64) {
    if let Some(it) = loops.get_mut(number) {
        it.room.height = height;
    }
}

/// Makes the children of a loop as high as it asks for, and gives the height of all together.
fn raise_children(
    alloc: Global,
    scale: Scale,
    loops: &mut Vec<Loop>,
    parent: usize,
    children: &[Child],
) -> Result<f64, NoMemory> {
    let mut all = 0.0;
    for child in children {
        let height = height_for(alloc, scale, loops.as_slice(), parent, child.number)?;
        raise(loops, child.number, height);
        all += height + child.gap;
    }
    Ok(all)
}

/// How wide a loop has to be for Stations inside of it, which stand there where its far or near side faces another loop.
fn width_inside(scale: Scale, stops: &[Stop], has_children: bool, has_parent: bool) -> f64 {
    let at_far = has_children && has_station_on(stops, Side::Far);
    let at_near = has_parent && has_station_on(stops, Side::Near);
    let sides = if at_far && at_near {
        2.0
    } else if at_far || at_near {
        1.0
    } else {
        return 0.0;
    };
    2.0 * scale.box_across() + sides * scale.station_beside() + 20.0
}

/// How large a loop is, whose children are together so high.
fn room_for(
    scale: Scale,
    stops: &[Stop],
    children: f64,
    has_children: bool,
    has_parent: bool,
) -> Room {
    let longest = count_on(stops, Side::Start)
        .max(count_on(stops, Side::End))
        .max(1);
    let far = if has_children {
        0
    } else {
        count_on(stops, Side::Far)
    };
    let places = count_on(stops, Side::Near).max(far).max(1);
    let room = |side| if has_station_on(stops, side) {
        scale.station_above()
    } else {
        0.0
    };
    let above = room(Side::Start);
    let below = room(Side::End);
    let width = count(longest) * scale.pitch.x + 2.0 * RADIUS;
    let height = count(places) * scale.pitch.y + 2.0 * RADIUS;
    Room {
        corner: Room::EMPTY.corner,
        width: width.max(width_inside(scale, stops, has_children, has_parent)),
        height: height.max(scale.least_height()).max(children) + above + below,
        above,
        below,
    }
}

/// Says how large a loop is. Its children are sized already.
fn size(alloc: Global, scale: Scale, loops: &mut Vec<Loop>, number: usize) -> Result<(), NoMemory> {
    let children = children_of(alloc, scale, loops.as_slice(), number)?;
    let height = raise_children(alloc, scale, loops, number, children.as_slice())?;
    let has_children = !children.is_empty();
    if let Some(it) = loops.get_mut(number) {
        let has_parent = it.parent.is_some();
        it.room = room_for(scale, it.stops.as_slice(), height, has_children, has_parent);
    }
    Ok(())
}

/// Says how large all loops are, children first.
pub(crate) fn size_all(
    alloc: Global,
    scales: Scales,
    loops: &mut Vec<Loop>,
) -> Result<(), NoMemory> {
    for number in (0..loops.len()).rev() {
        let scale = scales.at(loops.as_slice(), number);
        size(alloc, scale, loops, number)?;
    }
    Ok(())
}
