//! The drawing of a network: of one that grows to the right and one that grows downwards, the one that is larger in its room.
use crate::drawing::{Drawing, NodeBox};
use crate::grid::put_grid;
use crate::loops::find_loops;
use crate::loose::{put_rest, room_height, room_width};
use crate::measure::{Area, count};
use crate::names::shown_length;
use crate::places::place_all;
use crate::scale::{Format, Scales};
use crate::shelves::{empty, put_groups};
use crate::sides::shape_all;
use crate::sizes::size_all;
use crate::stops::Loop;
use crate::tree::{ordered, stands_of};
use hsr_frame::NoMemory;
use hsr_node::Place;
use hsr_topology::End;
use std::alloc::Global;

/// Over so many nodes a plain grid is drawn.
const MOST: usize = 256;

/// How wide a box is for names of so many characters.
fn box_width(names: &[&str]) -> f64 {
    let mut longest = 4;
    for name in names {
        longest = shown_length(name).max(longest);
    }
    (7.1 * count(longest) + 16.0).max(46.0)
}

/// The loops of a network, placed group by group.
fn placed_loops(
    alloc: Global,
    scales: Scales,
    places: &[Place],
    links: &[[End; 2]],
) -> Result<Vec<Loop>, NoMemory> {
    let mut loops = trees(alloc, places, links)?;
    shape_loops(alloc, scales, &mut loops, places.len())?;
    size_all(alloc, scales, &mut loops)?;
    place_all(alloc, scales, &mut loops)?;
    Ok(loops)
}

/// The loops of a network in the order of their trees.
fn trees(alloc: Global, places: &[Place], links: &[[End; 2]]) -> Result<Vec<Loop>, NoMemory> {
    let loops = find_loops(alloc, places, links)?;
    ordered(alloc, loops.as_slice(), places.len())
}

/// Puts the stops of loops on their sides.
fn shape_loops(
    alloc: Global,
    scales: Scales,
    loops: &mut Vec<Loop>,
    nodes: usize,
) -> Result<(), NoMemory> {
    let stands = stands_of(alloc, loops.as_slice(), nodes)?;
    shape_all(alloc, scales, loops, stands.as_slice())
}

/// Draws loops as they are wired.
fn put_wired(
    alloc: Global,
    drawing: &mut Drawing,
    scales: Scales,
    places: &[Place],
    links: &[[End; 2]],
) -> Result<(), NoMemory> {
    let loops = placed_loops(alloc, scales, places, links)?;
    put_groups(alloc, drawing, scales, places, links, loops.as_slice())
}

/// The network as it is wired.
fn wired(
    alloc: Global,
    scales: Scales,
    places: &[Place],
    links: &[[End; 2]],
) -> Result<Drawing, NoMemory> {
    let mut drawing = empty(alloc, scales, places, links)?;
    put_wired(alloc, &mut drawing, scales, places, links)?;
    put_rest(&mut drawing, places, links);
    Ok(drawing)
}

/// The network as a grid.
fn in_grid(
    alloc: Global,
    scales: Scales,
    places: &[Place],
    links: &[[End; 2]],
) -> Result<Drawing, NoMemory> {
    let mut drawing = empty(alloc, scales, places, links)?;
    put_grid(&mut drawing, places, links);
    Ok(drawing)
}

/// Whether what a node covers meets one of these boxes.
fn meets_box(area: Area, boxes: &[Option<NodeBox>]) -> bool {
    boxes.iter().any(|other| match other {
        Some(other) => area.meets(other.area()),
        None => false,
    })
}

/// Whether two boxes meet.
fn boxes_meet(boxes: &[Option<NodeBox>]) -> bool {
    let mut left = boxes;
    for it in boxes {
        if let Some((_, more)) = left.split_first() {
            left = more;
        }
        if let Some(it) = it {
            if meets_box(it.area(), left) {
                return true;
            }
        }
    }
    false
}

/// Whether two boxes meet, those of nodes that are drawn twice among them.
fn overlaps(drawing: &Drawing) -> bool {
    let half = drawing.half();
    boxes_meet(drawing.boxes.as_slice())
        || drawing.twins.iter().any(|twin| meets_box(
            Area::around(twin.middle, half),
            drawing.boxes.as_slice(),
        ))
}

/// How large a drawing is in its room.
fn size_in_room(drawing: &Drawing) -> f64 {
    let view = drawing.view();
    let across = room_width(drawing.format) / view.width();
    let down = room_height(drawing.format) / view.height();
    across.min(down)
}

/// Whether the second drawing is better: no boxes meet, or it is larger in its room.
fn is_better(first: &Drawing, second: &Drawing) -> bool {
    let first_overlaps = overlaps(first);
    let second_overlaps = overlaps(second);
    if first_overlaps == second_overlaps {
        size_in_room(second) > size_in_room(first)
    } else {
        first_overlaps
    }
}

/// The better of two drawings, the first if both are as good.
fn better(first: Drawing, second: Drawing) -> Drawing {
    if is_better(&first, &second) {
        second
    } else {
        first
    }
}

/// The better one of both ways in which loops may follow one another.
fn best_wired(
    alloc: Global,
    scales: Scales,
    places: &[Place],
    links: &[[End; 2]],
) -> Result<Drawing, NoMemory> {
    let across = wired(alloc, scales, places, links)?;
    let turned = Scales {
        is_turned: true,
        ..scales
    };
    let down = wired(alloc, turned, places, links)?;
    Ok(better(across, down))
}

/// Where the nodes and links of a network stand in a room of this format, as they are wired: rings as rings, QuadBoxes between them,
/// RedBoxes with their Stations. Over 256 nodes, or where boxes would meet, they stand in a plain grid. Nodes have their places, names and
/// links by number; a name that is missing is empty. `NoMemory` if allocation fails.
pub fn draw(
    alloc: Global,
    format: Format,
    places: &[Place],
    links: &[[End; 2]],
    names: &[&str],
) -> Result<Drawing, NoMemory> {
    let scales = Scales {
        format,
        is_turned: false,
        nodes: places.len(),
        box_width: box_width(names),
    };
    if places.len() > MOST {
        return in_grid(alloc, scales, places, links);
    }
    let drawing = best_wired(alloc, scales, places, links)?;
    if overlaps(&drawing) {
        in_grid(alloc, scales, places, links)
    } else {
        Ok(drawing)
    }
}
