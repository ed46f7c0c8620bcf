//! Groups of loops drawn: boxes, second places of boxes, wires, names of loops, and the Stations that hang on them.
use crate::drawing::{Drawing, LoopLabel};
use crate::measure::{Area, BOX_HEIGHT, Point, REACH, Spot};
use crate::scale::{Format, Scale};
use crate::stops::{Joint, Loop, Side, Stop};
use crate::track::Track;
use crate::wires::{LoopLine, wire_along};
use crate::wiring::{is_beside, peer};
use hsr_frame::NoMemory;
use hsr_node::Place;
use hsr_topology::End;

/// What a group is drawn after.
#[derive(Clone, Copy)]
pub(crate) struct Group {
    pub number: usize,
    pub scale: Scale,
    pub shift: Point,
}

impl Group {
    fn track(self, it: &Loop) -> Track {
        Track::new(it.oblong, self.scale.is_turned, self.shift)
    }
}

/// Where a stop stands.
fn spot_of(group: Group, it: &Loop, stop: Stop) -> Spot {
    let along = it.oblong.way_to(stop.side, stop.along);
    group.track(it).spot_at(along, 0.0)
}

/// Where a node stands on the loop of this number.
fn spot_on(group: Group, loops: &[Loop], number: usize, node: usize) -> Option<Spot> {
    let it = loops.get(number)?;
    let stop = it.stops.iter().find(|stop| stop.node == node)?;
    Some(spot_of(group, it, *stop))
}

/// Draws a box from one loop to the next.
fn put_bridge(drawing: &mut Drawing, group: Group, node: usize, from: Point, to: Point) {
    let half = if group.scale.is_turned {
        Point::new(
            group.scale.box_width / 2.0,
            (to.y - from.y).abs() / 2.0 + 12.0,
        )
    } else {
        Point::new((to.x - from.x).abs() / 2.0 + 14.0, BOX_HEIGHT / 2.0 + 6.0)
    };
    let middle = Point::new((from.x + to.x) / 2.0, (from.y + to.y) / 2.0);
    drawing.put_box(node, middle, half);
}

/// Draws a node at its stop: its box, or once more.
fn put_stop(
    drawing: &mut Drawing,
    group: Group,
    loops: &[Loop],
    it: &Loop,
    stop: Stop,
) -> Result<(), NoMemory> {
    let here = spot_of(group, it, stop).at;
    match stop.joint {
        // The parent draws it.
        Joint::Parent => Ok(()),
        Joint::Child(child) => {
            let there = spot_on(group, loops, child, stop.node).map(|spot| spot.at);
            put_bridge(drawing, group, stop.node, here, there.unwrap_or(here));
            Ok(())
        }
        Joint::Free => {
            if drawing.box_of(stop.node).is_some() {
                drawing.put_twin(stop.node, here)
            } else {
                drawing.put_box(stop.node, here, drawing.half());
                Ok(())
            }
        }
    }
}

/// Draws the nodes of a loop.
fn put_stops(
    drawing: &mut Drawing,
    group: Group,
    loops: &[Loop],
    it: &Loop,
) -> Result<(), NoMemory> {
    for stop in it.stops.iter() {
        put_stop(drawing, group, loops, it, *stop)?;
    }
    Ok(())
}

/// The stop behind one, round the loop.
fn stop_behind(stops: &[Stop], at: usize) -> Option<Stop> {
    match stops.get(at.saturating_add(1)) {
        Some(stop) => Some(*stop),
        None => stops.first().copied(),
    }
}

/// A stop with how far along its loop it lies.
fn with_way(it: &Loop, stop: Stop) -> (Stop, f64) {
    (stop, it.oblong.way_to(stop.side, stop.along))
}

/// Draws the link behind a stop.
fn put_next(
    drawing: &mut Drawing,
    group: Group,
    places: &[Place],
    links: &[[End; 2]],
    it: &Loop,
    at: usize,
    stop: Stop,
) {
    let line = LoopLine {
        track: group.track(it),
        is_turned: group.scale.is_turned,
        box_width: group.scale.box_width,
    };
    if let Some(passage) = stop.next {
        if let Some(link) = links.get(passage.link) {
            if let Some(next) = stop_behind(it.stops.as_slice(), at) {
                let stops = [with_way(it, stop), with_way(it, next)];
                let wire = wire_along(places, *link, passage, line, stops);
                drawing.put_wire(passage.link, wire);
            }
        }
    }
}

/// Draws the links of a loop.
fn put_links(drawing: &mut Drawing, group: Group, places: &[Place], links: &[[End; 2]], it: &Loop) {
    for (at, stop) in it.stops.iter().enumerate() {
        put_next(drawing, group, places, links, it, at, *stop);
    }
}

/// Notes where a loop lies, and where its name stands.
fn put_label(drawing: &mut Drawing, group: Group, it: &Loop) -> Result<(), NoMemory> {
    let track = group.track(it);
    let a = track.point(Point::new(it.oblong.left, it.oblong.top));
    let b = track.point(Point::new(it.oblong.right, it.oblong.bottom));
    let at = Point::new((a.x + b.x) / 2.0, (a.y + b.y) / 2.0);
    let half = Point::new(
        (a.x - b.x).abs() / 2.0 + 12.0,
        (a.y - b.y).abs() / 2.0 + 16.0,
    );
    drawing.cover(Area::around(at, half));
    drawing.labels.push(LoopLabel {
        number: it.number,
        at,
    })?;
    Ok(())
}

/// Draws a loop with its nodes and links.
fn put_loop(
    drawing: &mut Drawing,
    group: Group,
    places: &[Place],
    links: &[[End; 2]],
    loops: &[Loop],
    it: &Loop,
) -> Result<(), NoMemory> {
    put_stops(drawing, group, loops, it)?;
    put_links(drawing, group, places, links, it);
    put_label(drawing, group, it)
}

/// Whether the outside of a loop is free at a side. In a tall drawing Stations stand inside of a loop by itself at its long sides, where it is
/// wide enough.
fn is_open(group: Group, it: &Loop, has_children: bool, side: Side) -> bool {
    let width = it.oblong.right - it.oblong.left;
    let is_wide = width > 3.0 * group.scale.box_width + 2.0 * REACH;
    if group.scale.format == Format::Tall && it.is_alone && is_wide {
        return !side.is_across();
    }
    match side {
        Side::Start | Side::End => true,
        Side::Far => !has_children,
        // A child faces its parent, even where each box of both is drawn twice.
        Side::Near => it.parent.is_none(),
    }
}

/// Where a Station stands whose interlink begins at this place, outside of the loop or inside.
fn station_at(group: Group, spot: Spot, is_outside: bool) -> Point {
    let (x, y) = (spot.heading.y, -spot.heading.x);
    let (x, y) = if is_outside { (x, y) } else { (-x, -y) };
    let size = if y.abs() > 0.5 {
        BOX_HEIGHT
    } else {
        group.scale.box_width
    };
    let far = REACH + size;
    Point::new(spot.at.x + x * far, spot.at.y + y * far)
}

/// The first link beside the loops of a node that leads to a node without a box, and that node.
fn hanging(
    drawing: &Drawing,
    places: &[Place],
    links: &[[End; 2]],
    node: usize,
) -> Option<(usize, usize)> {
    for (number, link) in links.iter().enumerate() {
        if is_beside(places, *link) {
            if let Some(other) = peer(*link, node) {
                if drawing.box_of(other).is_none() {
                    return Some((number, other));
                }
            }
        }
    }
    None
}

/// Draws the Station that hangs at a stop, if there is one.
fn put_station(
    drawing: &mut Drawing,
    group: Group,
    places: &[Place],
    links: &[[End; 2]],
    it: &Loop,
    has_children: bool,
    stop: Stop,
) {
    // A second place of a node has no Station of its own.
    let spot = spot_of(group, it, stop);
    if !stop.has_station || stop.joint != Joint::Free {
        return;
    }
    if let Some((number, other)) = hanging(drawing, places, links, stop.node) {
        let is_outside = is_open(group, it, has_children, stop.side);
        let at = station_at(group, spot, is_outside);
        drawing.put_box(other, at, drawing.half());
        if let Some(link) = links.get(number) {
            drawing.put_straight(places, number, *link);
        }
    }
}

/// Draws the Stations that hang on a loop.
fn put_stations(
    drawing: &mut Drawing,
    group: Group,
    places: &[Place],
    links: &[[End; 2]],
    it: &Loop,
    has_children: bool,
) {
    for stop in it.stops.iter() {
        put_station(drawing, group, places, links, it, has_children, *stop);
    }
}

/// Whether a loop has children.
fn has_children(loops: &[Loop], number: usize) -> bool {
    loops.iter().any(|it| it.parent == Some(number))
}

/// Draws the loops of a group.
fn put_loops(
    drawing: &mut Drawing,
    group: Group,
    places: &[Place],
    links: &[[End; 2]],
    loops: &[Loop],
) -> Result<(), NoMemory> {
    for it in loops.iter().filter(|it| it.group == group.number) {
        put_loop(drawing, group, places, links, loops, it)?;
    }
    Ok(())
}

/// Draws a group.
pub(crate) fn put_group(
    drawing: &mut Drawing,
    group: Group,
    places: &[Place],
    links: &[[End; 2]],
    loops: &[Loop],
) -> Result<(), NoMemory> {
    put_loops(drawing, group, places, links, loops)?;
    for (number, it) in loops.iter().enumerate() {
        if it.group == group.number {
            let has_children = has_children(loops, number);
            put_stations(drawing, group, places, links, it, has_children);
        }
    }
    Ok(())
}
