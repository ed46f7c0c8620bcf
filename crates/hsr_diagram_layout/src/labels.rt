//! The shelves of labels: of what stands at the points of arrows, and beside the marks of sends.
use crate::columns::Columns;
use crate::rows::Stamps;
use crate::shelves::{Foot, Shelves, Side};
use crate::widths::{COPY, MARK, width_of};
use hsr_diagram::{Arrow, Look, Picture, Sent};
use hsr_diagram_text::send_words;
use hsr_finished_run::Closed;
use hsr_frame::NoMemory;
use hsr_link::Row;
use hsr_node::Probe;
use hsr_svg::Anchor;
use hsr_timeline::Stamp;
use std::alloc::Global;

// ---- arrows

/// Where the label of an arrow begins or ends: beyond its point, so that the arrow is free. That of a lost copy belongs
/// to the row from which it was sent.
pub(crate) fn foot_of(stamps: &Stamps, columns: &Columns, arrow: &Arrow) -> Foot {
    let (from, to) = columns.run_of(arrow);
    let (x, anchor) = if from < to {
        (to.saturating_add(6), Anchor::Start)
    } else {
        (to.saturating_sub(6), Anchor::End)
    };
    let (stamp, side) = if arrow.look == Look::Lost {
        (arrow.start, Side::Below)
    } else {
        (Some(judged_at(arrow)), Side::Above)
    };
    Foot {
        row: stamps.row_of(stamp),
        side,
        x,
        anchor,
    }
}

/// When the copy of an arrow was judged.
pub(crate) fn judged_at(arrow: &Arrow) -> Stamp {
    Stamp {
        moment: arrow.row.moment,
        step: arrow.row.step,
    }
}

/// How wide a send is as a label; 0, where it is none.
fn send_width(
    alloc: Global,
    names: &[Vec<u8>],
    send: Option<Probe>,
    letter: u64,
) -> Result<u64, NoMemory> {
    match send {
        Some(send) => Ok(width_of(send_words(alloc, names, send)?.as_slice(), letter)),
        None => Ok(0),
    }
}

/// How wide the label of the arrow of a row is; 0, where it has none.
fn row_width(
    alloc: Global,
    names: &[Vec<u8>],
    has_one: bool,
    look: Look,
    row: &Row,
) -> Result<u64, NoMemory> {
    match look {
        Look::Lost => Ok(width_of(row.fate.word().as_bytes(), COPY)),
        Look::TakenUp if !has_one => send_width(alloc, names, row.carried.probe, COPY),
        _ => Ok(0),
    }
}

/// Puts the label of an arrow on its shelf, if it has one.
fn put_arrow<const C: usize>(
    alloc: Global,
    shelves: &mut Shelves,
    names: &[Vec<u8>],
    closed: &Closed<C>,
    has_one: bool,
    arrow: &Arrow,
    foot: Foot,
) -> Result<(), NoMemory> {
    if let Some(row) = closed.rows_at(arrow.row.link).get(arrow.row.number) {
        let width = row_width(alloc, names, has_one, arrow.look, row)?;
        if width > 0 {
            shelves.put(foot, width)?;
        }
    }
    Ok(())
}

// ---- marks

/// Where the label of the mark of a send begins, on the line that has a number.
pub(crate) fn mark_foot(
    stamps: &Stamps,
    columns: &Columns,
    number: usize,
    start: Option<Stamp>,
) -> Foot {
    Foot {
        row: stamps.row_of(start),
        side: Side::Above,
        x: columns.line_at(number).saturating_add(7),
        anchor: Anchor::Start,
    }
}

/// Puts the labels of the marks of a send on their shelves, one on each line of its node.
fn put_marks(
    alloc: Global,
    shelves: &mut Shelves,
    names: &[Vec<u8>],
    stamps: &Stamps,
    columns: &Columns,
    send: Probe,
    sent: &Sent,
) -> Result<(), NoMemory> {
    let width = send_width(alloc, names, Some(send), MARK)?;
    for (number, node) in columns.nodes.as_slice().iter().enumerate() {
        if *node == send.node {
            shelves.put(mark_foot(stamps, columns, number, sent.start), width)?;
        }
    }
    Ok(())
}

/// Puts the labels of all marks on their shelves.
fn put_all_marks(
    alloc: Global,
    shelves: &mut Shelves,
    names: &[Vec<u8>],
    picture: &Picture,
    stamps: &Stamps,
    columns: &Columns,
) -> Result<(), NoMemory> {
    let deliveries = picture.deliveries.sends.as_slice();
    for sent in picture.sends.as_slice() {
        if let Some(delivery) = deliveries.get(sent.number) {
            put_marks(alloc, shelves, names, stamps, columns, delivery.send, sent)?;
        }
    }
    Ok(())
}

// ---- all

/// All labels of a picture on their shelves.
pub(crate) fn shelves_of<const C: usize>(
    alloc: Global,
    closed: &Closed<C>,
    names: &[Vec<u8>],
    picture: &Picture,
    stamps: &Stamps,
    columns: &Columns,
) -> Result<Shelves, NoMemory> {
    let mut shelves = Shelves::new(alloc);
    let has_one = picture.sends.len() == 1;
    for arrow in picture.arrows.as_slice() {
        let foot = foot_of(stamps, columns, arrow);
        put_arrow(alloc, &mut shelves, names, closed, has_one, arrow, foot)?;
    }
    put_all_marks(alloc, &mut shelves, names, picture, stamps, columns)?;
    Ok(shelves)
}
