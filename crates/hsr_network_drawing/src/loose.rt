//! Nodes that hang on no loop: in rows below all loops, each with the Stations that face it.
use crate::drawing::Drawing;
use crate::measure::{APART, BOX_HEIGHT, Point, REACH};
use crate::rows::Row;
use crate::scale::Format;
use crate::wiring::peer;
use hsr_node::Place;
use hsr_topology::End;

/// What lies between two rows.
const BETWEEN_ROWS: f64 = 30.0;

/// What lies between two of a row.
const BESIDE: f64 = 46.0;

/// How wide the room is.
pub(crate) fn room_width(format: Format) -> f64 {
    match format {
        Format::Wide => 980.0,
        Format::Tall => 360.0,
    }
}

/// How high the room is.
pub(crate) fn room_height(format: Format) -> f64 {
    match format {
        Format::Wide => 520.0,
        Format::Tall => 700.0,
    }
}

/// Whether a link leads from a node to one without a box.
fn leads_off(drawing: &Drawing, link: [End; 2], node: usize) -> bool {
    match peer(link, node) {
        Some(other) => drawing.box_of(other).is_none(),
        None => false,
    }
}

/// How many nodes without a box face a node.
fn faced(drawing: &Drawing, links: &[[End; 2]], node: usize) -> usize {
    links
        .iter()
        .filter(|link| leads_off(drawing, **link, node))
        .count()
}

/// Where the node of this number stands that faces a node in the middle: right, left, below, above.
fn beside(drawing: &Drawing, middle: Point, number: usize) -> Point {
    let across = drawing.box_width + 2.0 * REACH;
    let down = BOX_HEIGHT + REACH;
    match number {
        0 => Point::new(middle.x + across, middle.y),
        1 => Point::new(middle.x - across, middle.y),
        2 => Point::new(middle.x, middle.y + down),
        _ => Point::new(middle.x, middle.y - down),
    }
}

/// Draws the nodes that face one in the middle.
fn put_faced(
    drawing: &mut Drawing,
    places: &[Place],
    links: &[[End; 2]],
    node: usize,
    middle: Point,
) {
    let mut number = 0usize;
    for (at, link) in links.iter().enumerate() {
        if let Some(other) = peer(*link, node) {
            if drawing.box_of(other).is_none() {
                drawing.put_box(other, beside(drawing, middle, number), drawing.half());
                drawing.put_straight(places, at, *link);
                number = number.saturating_add(1);
            }
        }
    }
}

/// How far the nodes that face one reach at its left, and how many boxes wide all are.
fn reach_left(drawing: &Drawing, faced: usize) -> f64 {
    if faced > 1 {
        drawing.box_width + 2.0 * REACH
    } else {
        0.0
    }
}

/// How far they reach at its right.
fn reach_right(drawing: &Drawing, faced: usize) -> f64 {
    if faced > 0 {
        drawing.box_width + 2.0 * REACH
    } else {
        0.0
    }
}

/// How far they reach above, and below where there are three.
fn reach_down(faced: usize, least: usize) -> f64 {
    if faced > least {
        BOX_HEIGHT + REACH
    } else {
        0.0
    }
}

/// Draws a node and those that face it, and gives what is left of the row.
fn put_loose(
    drawing: &mut Drawing,
    places: &[Place],
    links: &[[End; 2]],
    row: Row,
    node: usize,
) -> Row {
    let faced = faced(drawing, links, node);
    let half = drawing.half();
    let left = reach_left(drawing, faced) + half.x;
    let right = reach_right(drawing, faced) + half.x;
    let row = row.fitting(left + right, BETWEEN_ROWS);
    let above = reach_down(faced, 3) + half.y;
    let below = reach_down(faced, 2) + half.y;
    let middle = Point::new(row.left + left, row.top + above);
    drawing.put_box(node, middle, half);
    put_faced(drawing, places, links, node, middle);
    row.behind(left + right + BESIDE, middle.y + below)
}

/// Draws the nodes without a box of one kind, Stations or all others.
fn put_kind(
    drawing: &mut Drawing,
    places: &[Place],
    links: &[[End; 2]],
    row: Row,
    is_station: bool,
) -> Row {
    let mut row = row;
    for (node, place) in places.iter().enumerate() {
        let is_of_kind = matches!(place, Place::Station { .. }) == is_station;
        if is_of_kind && drawing.box_of(node).is_none() {
            row = put_loose(drawing, places, links, row, node);
        }
    }
    row
}

/// Draws all links straight that aren't drawn.
fn put_left_links(drawing: &mut Drawing, places: &[Place], links: &[[End; 2]]) {
    for (at, link) in links.iter().enumerate() {
        if !drawing.has_wire(at) {
            drawing.put_straight(places, at, *link);
        }
    }
}

/// Draws the nodes that hang on no loop, and the links that aren't drawn.
pub(crate) fn put_rest(drawing: &mut Drawing, places: &[Place], links: &[[End; 2]]) {
    let (top, width) = match drawing.area {
        Some(area) => (area.high.y + APART, area.width()),
        None => (0.0, 0.0),
    };
    let row = Row::at(top, width.max(room_width(drawing.format)));
    // Stations come last: what they face draws them.
    let row = put_kind(drawing, places, links, row, false);
    let _row = put_kind(drawing, places, links, row, true);
    put_left_links(drawing, places, links);
}
