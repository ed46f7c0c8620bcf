//! Groups of loops in rows.
use crate::drawing::Drawing;
use crate::groups::{Group, put_group};
use crate::loose::{room_height, room_width};
use crate::measure::{APART, Area, Point};
use crate::rows::Row;
use crate::scale::{Format, Scales};
use crate::stops::Loop;
use hsr_frame::NoMemory;
use hsr_node::Place;
use hsr_topology::End;
use std::alloc::Global;

/// The group of a root, drawn where what it covers begins at this point.
fn group_of(scales: Scales, root: &Loop, shift: Point) -> Group {
    Group {
        number: root.group,
        scale: scales.of(root.is_alone),
        shift,
    }
}

/// An empty drawing for a network.
pub(crate) fn empty(
    alloc: Global,
    scales: Scales,
    places: &[Place],
    links: &[[End; 2]],
) -> Result<Drawing, NoMemory> {
    Drawing::new(
        alloc,
        scales.format,
        scales.box_width,
        places.len(),
        links.len(),
    )
}

/// What the group of a root covers, where the root lies at the origin.
fn extent_of(
    alloc: Global,
    scales: Scales,
    places: &[Place],
    links: &[[End; 2]],
    loops: &[Loop],
    root: &Loop,
) -> Result<Area, NoMemory> {
    let origin = Point::new(0.0, 0.0);
    let mut trial = empty(alloc, scales, places, links)?;
    put_group(
        &mut trial,
        group_of(scales, root, origin),
        places,
        links,
        loops,
    )?;
    Ok(trial.area.unwrap_or(Area::around(origin, origin)))
}

/// What the group of each root covers, none for loops that are no roots.
fn extents_of(
    alloc: Global,
    scales: Scales,
    places: &[Place],
    links: &[[End; 2]],
    loops: &[Loop],
) -> Result<Vec<Option<Area>>, NoMemory> {
    let mut extents = Vec::new(alloc);
    for root in loops {
        extents.push(if root.parent.is_none() {
            Some(extent_of(alloc, scales, places, links, loops, root)?)
        } else {
            None
        })?;
    }
    Ok(extents)
}

/// How wide rows are, so that all is about as wide to its height as its room, but not less wide than the widest group.
fn limit(format: Format, extents: &[Option<Area>]) -> f64 {
    let mut widest = 0.0f64;
    let mut all = 0.0f64;
    for extent in extents {
        if let Some(extent) = extent {
            widest = widest.max(extent.width());
            all += (extent.width() + APART) * (extent.height() + APART);
        }
    }
    (all * room_width(format) / room_height(format))
        .sqrt()
        .max(widest)
}

/// Draws the group of a root in a row, and gives what is left of it.
fn put_in_row(
    drawing: &mut Drawing,
    scales: Scales,
    places: &[Place],
    links: &[[End; 2]],
    loops: &[Loop],
    root: &Loop,
    extent: Area,
    row: Row,
) -> Result<Row, NoMemory> {
    let row = row.fitting(extent.width(), APART);
    let shift = Point::new(row.left - extent.low.x, row.top - extent.low.y);
    put_group(drawing, group_of(scales, root, shift), places, links, loops)?;
    Ok(row.behind(extent.width() + APART, row.top + extent.height()))
}

/// Draws all groups, those of several networks side by side and in rows.
pub(crate) fn put_groups(
    alloc: Global,
    drawing: &mut Drawing,
    scales: Scales,
    places: &[Place],
    links: &[[End; 2]],
    loops: &[Loop],
) -> Result<(), NoMemory> {
    let extents = extents_of(alloc, scales, places, links, loops)?;
    let mut row = Row::at(0.0, limit(scales.format, extents.as_slice()));
    for (number, extent) in extents.iter().enumerate() {
        if let Some(extent) = extent {
            if let Some(root) = loops.get(number) {
                row = put_in_row(drawing, scales, places, links, loops, root, *extent, row)?;
            }
        }
    }
    Ok(())
}
