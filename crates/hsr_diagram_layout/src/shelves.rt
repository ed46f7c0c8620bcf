//! Labels of a row that would lie on one another stand on shelves, one further from the row than the other.
use hsr_frame::NoMemory;
use hsr_svg::Anchor;
use std::alloc::Global;

/// How far a shelf is from the next.
pub(crate) const SHELF: u64 = 8;

/// The least space between two labels of a shelf.
const APART: u64 = 3;

/// Labels stand above their row, or below it where a copy was lost.
#[derive(Clone, Copy, PartialEq, Eq)]
pub(crate) enum Side {
    Above,
    Below,
}

/// Where a label begins or ends, beside a line or a cross.
#[derive(Clone, Copy)]
pub(crate) struct Foot {
    pub row: usize,
    pub side: Side,
    pub x: u64,
    pub anchor: Anchor,
}

/// A label on its shelf, and from where to where it runs.
#[derive(Clone, Copy)]
struct Label {
    foot: Foot,
    shelf: u64,
    left: u64,
    right: u64,
}

/// The labels of a picture.
#[derive(Drop)]
pub(crate) struct Shelves {
    labels: Vec<Label>,
}

/// From where to where a label of a width runs.
fn span_of(foot: Foot, width: u64) -> (u64, u64) {
    match foot.anchor {
        Anchor::Start => (foot.x, foot.x.saturating_add(width)),
        Anchor::Middle | Anchor::End => (foot.x.saturating_sub(width), foot.x),
    }
}

impl Shelves {
    pub(crate) fn new(alloc: Global) -> Shelves {
        Shelves {
            labels: Vec::new(alloc),
        }
    }

    /// Whether a label has a shelf without touching another.
    fn is_free(&self, label: Label) -> bool {
        !self.labels.as_slice().iter().any(|other| {
            other.foot.row == label.foot.row
                && other.foot.side == label.foot.side
                && other.shelf == label.shelf
                && other.left < label.right.saturating_add(APART)
                && label.left < other.right.saturating_add(APART)
        })
    }

    /// Puts a label of a width on the first shelf that is free, and tells its number. With n labels there, one of n + 1
    /// shelves is free.
    pub(crate) fn put(&mut self, foot: Foot, width: u64) -> Result<u64, NoMemory> {
        let (left, right) = span_of(foot, width);
        let mut label = Label {
            foot,
            shelf: 0,
            left,
            right,
        };
        for shelf in 0..=self.labels.len() as u64 {
            label.shelf = shelf;
            if self.is_free(label) {
                break;
            }
        }
        self.labels.push(label)?;
        Ok(label.shelf)
    }

    /// The shelf of a label; the first, where there is no such label.
    pub(crate) fn shelf_of(&self, foot: Foot) -> u64 {
        let label = self.labels.as_slice().iter().find(|label| {
            label.foot.row == foot.row && label.foot.side == foot.side && label.foot.x == foot.x
        });
        match label {
            Some(label) => label.shelf,
            None => 0,
        }
    }

    /// How much room the labels of a row take at a side.
    pub(crate) fn room(&self, row: usize, side: Side) -> u64 {
        let mut room: u64 = 0;
        for label in self.labels.as_slice() {
            if label.foot.row == row && label.foot.side == side {
                room = room.max(label.shelf.saturating_mul(SHELF).saturating_add(SHELF + 1));
            }
        }
        room
    }
}
