//! Moments and steps, downwards.
use crate::shelves::{SHELF, Shelves, Side};
use hsr_diagram::Picture;
use hsr_frame::NoMemory;
use hsr_timeline::Stamp;
use std::alloc::Global;

/// The more space between two moments.
const GAP: u64 = 12;

/// All stamps of a picture, rising: for each a row.
#[derive(Drop)]
pub(crate) struct Stamps {
    stamps: Vec<(u64, u64)>,
}

impl Stamps {
    /// The row of a stamp. Each stamp of a picture has one; what hasn't one would stand in the first, so that it is drawn
    /// all the same.
    pub(crate) fn row_of(&self, stamp: Option<Stamp>) -> usize {
        match stamp {
            Some(stamp) => self
                .stamps
                .as_slice()
                .iter()
                .position(|(moment, step)| *moment == stamp.moment && *step == stamp.step)
                .unwrap_or(0),
            None => 0,
        }
    }

    /// How many rows there are.
    pub(crate) fn len(&self) -> usize {
        self.stamps.len()
    }

    /// The first row of a moment behind one; the number of all, where there is none.
    pub(crate) fn first_after(&self, moment: u64) -> usize {
        self.stamps
            .as_slice()
            .iter()
            .position(|(other, _)| moment < *other)
            .unwrap_or(self.stamps.len())
    }

    /// The first row of a stamp, or behind it; the number of all, where there is none.
    pub(crate) fn first_since(&self, stamp: Stamp) -> usize {
        self.stamps
            .as_slice()
            .iter()
            .position(|(moment, step)| {
                stamp.moment < *moment || (stamp.moment == *moment && stamp.step <= *step)
            })
            .unwrap_or(self.stamps.len())
    }

    /// Whether a row is the first of its moment, and none stands before it.
    fn begins_moment(&self, row: usize) -> bool {
        match self.stamps.as_slice().get(row) {
            Some((moment, _)) => self.first_of(*moment) == row,
            None => false,
        }
    }

    /// The first row of a moment.
    fn first_of(&self, moment: u64) -> usize {
        self.stamps
            .as_slice()
            .iter()
            .position(|(other, _)| *other == moment)
            .unwrap_or(0)
    }

    /// The last moment.
    pub(crate) fn last_moment(&self) -> u64 {
        match self.stamps.as_slice().last() {
            Some((moment, _)) => *moment,
            None => 0,
        }
    }
}

/// Puts a stamp last, if there is one.
fn push_if(marks: &mut Vec<(u64, u64)>, stamp: Option<Stamp>) -> Result<(), NoMemory> {
    if let Some(stamp) = stamp {
        marks.push((stamp.moment, stamp.step))?;
    }
    Ok(())
}

/// The stamps of a picture.
pub(crate) fn stamps_of(alloc: Global, picture: &Picture) -> Result<Stamps, NoMemory> {
    let mut stamps = Vec::new(alloc);
    for arrow in picture.arrows.as_slice() {
        stamps.push((arrow.row.moment, arrow.row.step))?;
        push_if(&mut stamps, arrow.start)?;
    }
    for sent in picture.sends.as_slice() {
        push_if(&mut stamps, sent.start)?;
    }
    stamps.sort_unstable();
    stamps.dedup();
    Ok(Stamps { stamps })
}

/// Where each row stands; the least space between two; how far the cross of a lost copy stands below its row; and where
/// the last stands.
#[derive(Drop)]
pub(crate) struct Rows {
    pub stamps: Stamps,
    ys: Vec<u64>,
    pub top: u64,
    pub space: u64,
    pub drop: u64,
    pub bottom: u64,
}

impl Rows {
    /// The y over a row at which what stands before it ends, where labels take this room between.
    pub(crate) fn over(&self, row: usize, room: u64) -> u64 {
        let least = if row > 0 && self.stamps.begins_moment(row) {
            self.space
        } else {
            self.space / 2
        };
        self.at(row).saturating_sub(least.max(room))
    }

    /// The y of a row.
    pub(crate) fn at(&self, row: usize) -> u64 {
        match self.ys.as_slice().get(row) {
            Some(y) => *y,
            None => self.top,
        }
    }

    /// The y of a stamp; that of the first row, where there is none.
    pub(crate) fn at_some(&self, stamp: Option<Stamp>) -> u64 {
        self.at(self.stamps.row_of(stamp))
    }

    /// The y of the first row of a moment.
    pub(crate) fn first_of(&self, moment: u64) -> u64 {
        self.at(self.stamps.first_of(moment))
    }
}

/// The least space between two steps, where there are `count` rows: more rows stand closer.
fn space_for(count: usize) -> u64 {
    match count {
        0..=160 => 15,
        161..=320 => 12,
        _ => 10,
    }
}

/// The space before a row at a moment, where labels of the row before take the room `below` under it, and its own the
/// room `above` over it.
fn space_before(before: Option<u64>, moment: u64, space: u64, below: u64, above: u64) -> u64 {
    let labels = below.saturating_add(above);
    match before {
        None => above.saturating_sub(SHELF + 1),
        Some(before) if before == moment => space.max(labels),
        Some(_) => space.saturating_add(GAP).max(labels),
    }
}

/// How much room there must be below a row: that of the labels of lost copies, which hang there beside their crosses.
fn room_below(shelves: &Shelves, row: usize, drop: u64) -> u64 {
    match shelves.room(row, Side::Below) {
        0 => 0,
        room => room.saturating_add(drop).saturating_sub(4),
    }
}

/// Rows from a y downwards, with room for these labels.
pub(crate) fn rows_of(
    alloc: Global,
    stamps: Stamps,
    top: u64,
    shelves: &Shelves,
) -> Result<Rows, NoMemory> {
    let space = space_for(stamps.stamps.len());
    let drop = space / 3;
    let mut ys = Vec::new(alloc);
    let mut y = top;
    let mut below = 0;
    let mut before = None;
    for (row, stamp) in stamps.stamps.as_slice().iter().enumerate() {
        let above = shelves.room(row, Side::Above);
        y = y.saturating_add(space_before(before, stamp.0, space, below, above));
        ys.push(y)?;
        before = Some(stamp.0);
        below = room_below(shelves, row, drop);
    }
    Ok(Rows {
        stamps,
        ys,
        top,
        space,
        drop,
        bottom: y.saturating_add(below),
    })
}
