//! Loops: rings, and lines of nodes that no ring closes, with the sides on which their nodes stand.
use crate::measure::{CORNER, Point, RADIUS};
use hsr_frame::NoMemory;
use std::alloc::Global;

/// A side of a loop, clockwise, where loops follow one another to the right: above, at the right, below, at the left.
#[derive(Clone, Copy, PartialEq, Eq)]
pub(crate) enum Side {
    Start,
    Far,
    End,
    Near,
}

impl Side {
    /// The next one clockwise.
    pub(crate) fn next(self) -> Side {
        match self {
            Side::Start => Side::Far,
            Side::Far => Side::End,
            Side::End => Side::Near,
            Side::Near => Side::Start,
        }
    }

    /// Whether it faces the loop's parent or its children.
    pub(crate) fn is_across(self) -> bool {
        matches!(self, Side::Far | Side::Near)
    }
}

/// A link, and whether it is gone through from its first end.
#[derive(Clone, Copy)]
pub(crate) struct Passage {
    pub link: usize,
    pub is_forth: bool,
}

impl Passage {
    pub(crate) fn reversed(self) -> Passage {
        Passage {
            link: self.link,
            is_forth: !self.is_forth,
        }
    }
}

/// With which other loop a stop shares its box.
#[derive(Clone, Copy, PartialEq, Eq)]
pub(crate) enum Joint {
    Free,
    Parent,
    /// The child of this number.
    Child(usize),
}

/// A node at its place in a loop.
#[derive(Clone, Copy)]
pub(crate) struct Stop {
    pub node: usize,
    /// The link to the next stop, where there is one.
    pub next: Option<Passage>,
    /// Whether a node without a loop hangs there.
    pub has_station: bool,
    pub side: Side,
    pub joint: Joint,
    /// Its place along its side, from the left or from above.
    pub along: f64,
}

/// Where a loop lies, before it is turned: its left, upper, right and lower side.
#[derive(Clone, Copy)]
pub(crate) struct Oblong {
    pub left: f64,
    pub top: f64,
    pub right: f64,
    pub bottom: f64,
}

impl Oblong {
    pub(crate) const EMPTY: Oblong = Oblong {
        left: 0.0,
        top: 0.0,
        right: 0.0,
        bottom: 0.0,
    };

    /// How long its straight sides are, above and at the right.
    pub(crate) fn straight(self) -> Point {
        Point::new(
            self.right - self.left - 2.0 * RADIUS,
            self.bottom - self.top - 2.0 * RADIUS,
        )
    }

    /// How far a place on a side lies from the end of the upper left corner, clockwise.
    pub(crate) fn way_to(self, side: Side, along: f64) -> f64 {
        let long = self.straight();
        match side {
            Side::Start => along - self.left - RADIUS,
            Side::Far => long.x + CORNER + along - self.top - RADIUS,
            Side::End => long.x + long.y + 2.0 * CORNER + self.right - RADIUS - along,
            Side::Near => 2.0 * long.x + long.y + 3.0 * CORNER + self.bottom - RADIUS - along,
        }
    }
}

/// Where a loop may lie: its upper left corner, how large it is, and what is free for Stations above and below.
#[derive(Clone, Copy)]
pub(crate) struct Room {
    pub corner: Point,
    pub width: f64,
    pub height: f64,
    pub above: f64,
    pub below: f64,
}

impl Room {
    pub(crate) const EMPTY: Room = Room {
        corner: Point { x: 0.0, y: 0.0 },
        width: 0.0,
        height: 0.0,
        above: 0.0,
        below: 0.0,
    };
}

/// A loop, and where it stands among those with which it shares QuadBoxes.
#[derive(Drop)]
pub(crate) struct Loop {
    /// Its number by the lowest link of each.
    pub number: usize,
    /// The number of its group.
    pub group: usize,
    /// Whether its group has no other loop.
    pub is_alone: bool,
    /// The loop nearer to the root with which it shares a box.
    pub parent: Option<usize>,
    pub stops: Vec<Stop>,
    pub room: Room,
    pub oblong: Oblong,
}

/// A stop that isn't placed yet.
pub(crate) fn unplaced_stop(node: usize, next: Option<Passage>) -> Stop {
    Stop {
        node,
        next,
        has_station: false,
        side: Side::Start,
        joint: Joint::Free,
        along: 0.0,
    }
}

/// The stops of a loop; none of a loop that isn't there.
pub(crate) fn stops_at(loops: &[Loop], number: usize) -> &[Stop] {
    match loops.get(number) {
        Some(it) => it.stops.as_slice(),
        None => &[],
    }
}

/// The room of a loop; an empty one of a loop that isn't there.
pub(crate) fn room_at(loops: &[Loop], number: usize) -> Room {
    match loops.get(number) {
        Some(it) => it.room,
        None => Room::EMPTY,
    }
}

/// How many stops are on a side.
pub(crate) fn count_on(stops: &[Stop], side: Side) -> usize {
    stops.iter().filter(|stop| stop.side == side).count()
}

/// Whether a node without a loop hangs at a stop of a side.
pub(crate) fn has_station_on(stops: &[Stop], side: Side) -> bool {
    stops
        .iter()
        .any(|stop| stop.side == side && stop.has_station)
}

/// The same stops, beginning at the one of this number.
pub(crate) fn begun_at(alloc: Global, stops: &[Stop], first: usize) -> Result<Vec<Stop>, NoMemory> {
    let mut turned = Vec::new(alloc);
    for stop in stops.iter().skip(first).chain(stops.iter().take(first)) {
        turned.push(*stop)?;
    }
    Ok(turned)
}

/// The passage before a stop, gone through the other way.
fn back_from(stops: &[Stop], at: usize) -> Option<Passage> {
    let before = if at == 0 {
        stops.len().saturating_sub(1)
    } else {
        at.saturating_sub(1)
    };
    match stops.get(before) {
        Some(stop) => match stop.next {
            Some(passage) => Some(passage.reversed()),
            None => None,
        },
        None => None,
    }
}

/// The same stops, the other way round.
pub(crate) fn reversed(alloc: Global, stops: &[Stop]) -> Result<Vec<Stop>, NoMemory> {
    let mut turned = Vec::new(alloc);
    for (at, stop) in stops.iter().enumerate().rev() {
        let mut stop = *stop;
        stop.next = back_from(stops, at);
        turned.push(stop)?;
    }
    Ok(turned)
}
