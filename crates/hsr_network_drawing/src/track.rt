//! Ways along loops, which are straight lines and quarter circles, and straight ways between boxes.
use crate::measure::{CORNER, Point, RADIUS, Spot, cosine, distance, sine, within_lap};
use crate::stops::Oblong;

/// How many parts a loop has: four sides and four corners.
const PARTS: usize = 8;

/// Where a loop lies in the drawing.
#[derive(Clone, Copy)]
pub struct Track {
    oblong: Oblong,
    is_turned: bool,
    shift: Point,
}

/// Where a link runs.
#[derive(Clone, Copy)]
pub enum Course {
    /// Along a loop, clockwise.
    Loop(Track),
    Straight { from: Point, to: Point },
}

/// A part of a loop.
#[derive(Clone, Copy)]
enum Part {
    /// From a point on, in a direction of length 1.
    Side { from: Point, heading: Point },
    /// Around a point, so many quarter turns behind the upper right corner.
    Corner { middle: Point, quarters: usize },
}

/// A part of a course between two places, at a distance from its line, gone through as it runs or backwards.
#[derive(Clone, Copy)]
pub struct Stretch {
    pub course: Course,
    pub from: f64,
    pub to: f64,
    /// How far outside of the loop it lies, or at the left of the straight line.
    pub off: f64,
    pub is_back: bool,
}

/// A step of a path.
#[derive(Clone, Copy)]
pub enum Stroke {
    Line {
        to: Point,
    },
    /// A part of a circle, clockwise or not.
    Arc {
        radius: f64,
        is_clockwise: bool,
        to: Point,
    },
}

/// A vector that is turned clockwise by quarters.
fn turned(x: f64, y: f64, quarters: usize) -> Point {
    match quarters {
        0 => Point::new(x, y),
        1 => Point::new(-y, x),
        2 => Point::new(-x, -y),
        _ => Point::new(y, -x),
    }
}

impl Track {
    pub(crate) fn new(oblong: Oblong, is_turned: bool, shift: Point) -> Track {
        Track {
            oblong,
            is_turned,
            shift,
        }
    }

    /// How long the straight sides above and below are, and those at the left and right.
    fn straight(self) -> Point {
        self.oblong.straight()
    }

    /// How long it is all round.
    pub(crate) fn length(self) -> f64 {
        let long = self.straight();
        2.0 * (long.x + long.y) + 4.0 * CORNER
    }

    /// How long a part is.
    fn length_of(self, part: usize) -> f64 {
        let long = self.straight();
        match part % 4 {
            0 => long.x,
            2 => long.y,
            _ => CORNER,
        }
    }

    /// The part of this number, from the side above on, clockwise.
    fn part(self, number: usize) -> Part {
        let it = self.oblong;
        let (left, top) = (it.left + RADIUS, it.top + RADIUS);
        let (right, bottom) = (it.right - RADIUS, it.bottom - RADIUS);
        match number {
            0 => side(left, it.top, 1.0, 0.0),
            1 => corner(right, top, 3),
            2 => side(it.right, top, 0.0, 1.0),
            3 => corner(right, bottom, 0),
            4 => side(right, it.bottom, -1.0, 0.0),
            5 => corner(left, bottom, 1),
            6 => side(it.left, bottom, 0.0, -1.0),
            _ => corner(left, top, 2),
        }
    }

    /// Where a point of the loop lies in the drawing.
    pub(crate) fn point(self, at: Point) -> Point {
        let it = if self.is_turned {
            turned(at.x, at.y, 1)
        } else {
            at
        };
        it.moved(self.shift)
    }

    /// A direction along the loop as it lies in the drawing.
    fn heading(self, it: Point) -> Point {
        if self.is_turned {
            turned(it.x, it.y, 1)
        } else {
            it
        }
    }

    /// The place on a part so far from its begin, and so far outside.
    fn spot_on(self, part: Part, along: f64, off: f64) -> Spot {
        match part {
            Part::Side { from, heading } => {
                let x = from.x + heading.x * along + heading.y * off;
                let y = from.y + heading.y * along - heading.x * off;
                self.spot(Point::new(x, y), heading)
            }
            Part::Corner { middle, quarters } => {
                let angle = along / RADIUS;
                let out = turned(cosine(angle), sine(angle), quarters);
                let far = RADIUS + off;
                let at = Point::new(middle.x + far * out.x, middle.y + far * out.y);
                self.spot(at, Point::new(-out.y, out.x))
            }
        }
    }

    /// A place on the loop as it lies in the drawing.
    fn spot(self, at: Point, heading: Point) -> Spot {
        Spot {
            at: self.point(at),
            heading: self.heading(heading),
        }
    }

    /// The place so far along the loop, and so far outside.
    pub(crate) fn spot_at(self, along: f64, off: f64) -> Spot {
        let mut left = within_lap(along, self.length());
        for number in 0..PARTS {
            let length = self.length_of(number);
            if left <= length {
                return self.spot_on(self.part(number), left, off);
            }
            left -= length;
        }
        self.spot_on(self.part(0), 0.0, off)
    }
}

/// A side from a point on.
fn side(x: f64, y: f64, right: f64, down: f64) -> Part {
    Part::Side {
        from: Point::new(x, y),
        heading: Point::new(right, down),
    }
}

/// A corner around a point.
fn corner(x: f64, y: f64, quarters: usize) -> Part {
    Part::Corner {
        middle: Point::new(x, y),
        quarters,
    }
}

impl Course {
    /// The place so far along, and so far outside or at the left.
    pub fn spot_at(self, along: f64, off: f64) -> Spot {
        match self {
            Course::Loop(track) => track.spot_at(along, off),
            Course::Straight { from, to } => {
                let (x, y) = (to.x - from.x, to.y - from.y);
                let length = distance(x, y).max(0.1);
                let heading = Point::new(x / length, y / length);
                Spot {
                    at: Point::new(
                        from.x + heading.x * along + heading.y * off,
                        from.y + heading.y * along - heading.x * off,
                    ),
                    heading,
                }
            }
        }
    }
}

impl Stretch {
    /// Where it begins.
    pub fn begin(self) -> Point {
        let along = if self.is_back { self.to } else { self.from };
        self.course.spot_at(along, self.off).at
    }

    /// How many strokes may be asked for.
    pub fn strokes(self) -> usize {
        match self.course {
            // A stretch begins on the first lap and is one lap long at most.
            Course::Loop(_) => 3 * PARTS,
            Course::Straight { .. } => 1,
        }
    }

    /// The stroke of this number, in the order in which it is gone through; `None` where it has no part of that number.
    pub fn stroke(self, number: usize) -> Option<Stroke> {
        match self.course {
            Course::Loop(track) => self.stroke_on(track, self.numbered(number)),
            Course::Straight { .. } => {
                let along = if self.is_back { self.from } else { self.to };
                Some(Stroke::Line {
                    to: self.course.spot_at(along, self.off).at,
                })
            }
        }
    }

    /// The number of a part, from the side above on, that is gone through as the one of this number.
    fn numbered(self, number: usize) -> usize {
        if self.is_back {
            (3 * PARTS).saturating_sub(1).saturating_sub(number)
        } else {
            number
        }
    }

    /// What lies of a part of a loop in the stretch.
    fn stroke_on(self, track: Track, number: usize) -> Option<Stroke> {
        let begin = part_begin(track, number);
        let end = begin + track.length_of(number % PARTS);
        if end < self.from + 0.001 || begin > self.to - 0.001 {
            return None;
        }
        let along = if self.is_back {
            begin.max(self.from)
        } else {
            end.min(self.to)
        };
        let to = track.spot_at(along, self.off).at;
        Some(if number % 2 == 0 {
            Stroke::Line { to }
        } else {
            Stroke::Arc {
                radius: RADIUS + self.off,
                is_clockwise: !self.is_back,
                to,
            }
        })
    }
}

/// How far the begin of a part lies along the loop, for parts that are counted on over several laps.
fn part_begin(track: Track, number: usize) -> f64 {
    let mut begin = 0.0;
    for part in 0..number.min(3 * PARTS) {
        begin += track.length_of(part % PARTS);
    }
    begin
}
