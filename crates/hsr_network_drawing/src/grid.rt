//! A plain grid of boxes with straight links, where there are too many nodes to lay them out as they are wired.
use crate::drawing::Drawing;
use crate::loose::{room_height, room_width};
use crate::measure::{BOX_HEIGHT, Point, count};
use hsr_node::Place;
use hsr_topology::End;
use std::num::saturating_f64_to_usize;

/// What lies between boxes beside one another, and above one another.
const BESIDE: f64 = 88.0;

/// How many boxes stand in a row, so that all is about as wide to its height as its room.
fn row_length(drawing: &Drawing) -> usize {
    let proportion = room_width(drawing.format) / room_height(drawing.format);
    let boxes = count(drawing.boxes.len());
    let cell = (BOX_HEIGHT + BESIDE) / (drawing.box_width + BESIDE);
    saturating_f64_to_usize((boxes * cell * proportion).sqrt().ceil()).max(1)
}

/// Draws so many boxes in rows.
fn put_boxes(drawing: &mut Drawing, nodes: usize) {
    let length = row_length(drawing);
    let mut column = 0usize;
    let mut row = 0usize;
    for node in 0..nodes {
        let x = count(column) * (drawing.box_width + BESIDE);
        let y = count(row) * (BOX_HEIGHT + BESIDE);
        drawing.put_box(node, Point::new(x, y), drawing.half());
        column = column.saturating_add(1);
        if column >= length {
            column = 0;
            row = row.saturating_add(1);
        }
    }
}

/// Draws all nodes in rows, and each link straight.
pub(crate) fn put_grid(drawing: &mut Drawing, places: &[Place], links: &[[End; 2]]) {
    put_boxes(drawing, places.len());
    for (at, link) in links.iter().enumerate() {
        drawing.put_straight(places, at, *link);
    }
}
