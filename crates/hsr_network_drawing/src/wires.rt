//! The links of a drawing: their lines, the lanes beside them, and what is written there.
use crate::measure::{BOX_HEIGHT, Point, Spot, distance, within_lap};
use crate::stops::{Passage, Stop};
use crate::track::{Course, Stretch, Track};
use hsr_node::Place;
use hsr_topology::End;

/// How far a lane lies from its wire.
const LANE: f64 = 7.0;

/// How far the letters of ports lie from it.
const LETTER: f64 = 20.0;

/// How far its number lies from it.
const NUMBER: f64 = -17.0;

/// What lies between a box and the end of a lane.
const CLEAR: f64 = 2.0;

/// How far a lost copy goes.
const LOST: f64 = 0.42;

/// The letter of a port, and where it stands.
#[derive(Clone, Copy)]
pub struct Letter {
    pub letter: u8,
    pub at: Point,
}

/// The way of copies in one direction.
#[derive(Clone, Copy)]
pub struct Lane {
    pub way: Stretch,
    /// Where a copy arrives.
    pub tip: Spot,
    /// Where a lost copy ends.
    pub cross: Point,
    /// The way of a lost copy.
    pub lost: Stretch,
}

/// A link as it is drawn.
#[derive(Clone, Copy)]
pub struct Wire {
    /// From the middle of one box to the middle of the other.
    pub line: Stretch,
    pub middle: Spot,
    /// Where its number stands.
    pub number: Point,
    /// The letters of the ports, of the link's first end and of its second.
    pub letters: [Letter; 2],
    /// The lane from its first end on, and the one back.
    pub lanes: [Lane; 2],
}

/// The part of a course that boxes leave free.
#[derive(Clone, Copy)]
struct Free {
    course: Course,
    from: f64,
    to: f64,
}

impl Free {
    fn lane(self, is_back: bool) -> Lane {
        let off = if is_back { -LANE } else { LANE };
        let lost = LOST * (self.to - self.from);
        let (from, to) = if is_back {
            (self.to - lost, self.to)
        } else {
            (self.from, self.from + lost)
        };
        let tip = self
            .course
            .spot_at(if is_back { self.from } else { self.to }, off);
        Lane {
            way: Stretch {
                course: self.course,
                from: self.from,
                to: self.to,
                off,
                is_back,
            },
            tip: if is_back { tip.reversed() } else { tip },
            cross: self.course.spot_at(if is_back { from } else { to }, off).at,
            lost: Stretch {
                course: self.course,
                from,
                to,
                off,
                is_back,
            },
        }
    }

    /// The middle of it.
    fn middle(self) -> f64 {
        (self.from + self.to) / 2.0
    }

    /// Where the letter of the port at its begin stands, and of the one at its end.
    fn letters_at(self, off: f64) -> (Point, Point) {
        let begin = self.course.spot_at(self.from + 4.0, off).at;
        let end = self.course.spot_at(self.to - 4.0, off).at;
        (begin, end)
    }
}

/// The letter of a port; a question mark where there is no such port.
fn letter_of(places: &[Place], end: End) -> u8 {
    match places.get(end.node) {
        Some(place) => place.letter(end.port),
        None => b'?',
    }
}

/// A wire of which this is free, that begins with the link's first end or with its second.
fn wire_with(
    places: &[Place],
    link: [End; 2],
    line: Stretch,
    free: Free,
    is_forth: bool,
    letters: f64,
) -> Wire {
    let [a, b] = link;
    let (begin, end) = free.letters_at(letters);
    let (first, second) = if is_forth { (begin, end) } else { (end, begin) };
    Wire {
        line,
        middle: free.course.spot_at(free.middle(), 0.0),
        number: free.course.spot_at(free.middle(), NUMBER).at,
        letters: [
            Letter {
                letter: letter_of(places, a),
                at: first,
            },
            Letter {
                letter: letter_of(places, b),
                at: second,
            },
        ],
        lanes: [free.lane(!is_forth), free.lane(is_forth)],
    }
}

/// Half of what a box covers of the loop on which it stands.
fn extent(places: &[Place], stop: Stop, is_turned: bool, box_width: f64) -> f64 {
    let is_level = stop.side.is_across() == is_turned;
    let half = if is_level {
        box_width / 2.0
    } else {
        BOX_HEIGHT / 2.0
    };
    if !is_turned && matches!(places.get(stop.node), Some(Place::QuadBox)) {
        half + 6.0
    } else {
        half
    }
}

/// The part between two boxes, which cover so much of it; a short piece in the middle where they leave nothing.
fn between(course: Course, from: f64, to: f64, first: f64, second: f64) -> Free {
    let (begin, end) = (from + first + CLEAR, to - second - CLEAR);
    if begin + CLEAR < end {
        Free {
            course,
            from: begin,
            to: end,
        }
    } else {
        let middle = (begin + end) / 2.0;
        Free {
            course,
            from: middle - CLEAR,
            to: middle + CLEAR,
        }
    }
}

/// What a loop's wires are drawn after.
#[derive(Clone, Copy)]
pub(crate) struct LoopLine {
    pub track: Track,
    pub is_turned: bool,
    pub box_width: f64,
}

/// The wire along a loop from a stop to the next one, which lie so far along it.
pub(crate) fn wire_along(
    places: &[Place],
    link: [End; 2],
    passage: Passage,
    line: LoopLine,
    stops: [(Stop, f64); 2],
) -> Wire {
    let [(first, from), (second, behind)] = stops;
    let lap = line.track.length();
    let from = within_lap(from, lap);
    let way = within_lap(behind - from, lap);
    let to = if way < 0.001 { from + lap } else { from + way };
    let course = Course::Loop(line.track);
    let free = between(
        course,
        from,
        to,
        extent(places, first, line.is_turned, line.box_width),
        extent(places, second, line.is_turned, line.box_width),
    );
    let line = Stretch {
        course,
        from,
        to,
        off: 0.0,
        is_back: false,
    };
    wire_with(places, link, line, free, passage.is_forth, LETTER)
}

/// How far the edge of a box lies from its middle in a direction.
fn edge(half: Point, x: f64, y: f64) -> f64 {
    let across = half.x / x.abs().max(0.001);
    let down = half.y / y.abs().max(0.001);
    across.min(down)
}

/// The wire straight from one box to another, by their middles and halves.
pub(crate) fn wire_straight(
    places: &[Place],
    link: [End; 2],
    from: (Point, Point),
    to: (Point, Point),
) -> Wire {
    let ((a, first), (b, second)) = (from, to);
    let course = Course::Straight { from: a, to: b };
    let length = distance(b.x - a.x, b.y - a.y);
    let heading = course.spot_at(0.0, 0.0).heading;
    let free = between(
        course,
        0.0,
        length,
        edge(first, heading.x, heading.y),
        edge(second, heading.x, heading.y),
    );
    let line = Stretch {
        course,
        from: 0.0,
        to: length,
        off: 0.0,
        is_back: false,
    };
    wire_with(places, link, line, free, true, -LETTER)
}
