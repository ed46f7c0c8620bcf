//! Lengths of a drawing, in user units of SVG, and points.
use std::num::nearest_usize_to_f64;

/// The radius of a loop's corners.
pub(crate) const RADIUS: f64 = 38.0;

/// The height of a box.
pub(crate) const BOX_HEIGHT: f64 = 30.0;

/// The length of an interlink.
pub(crate) const REACH: f64 = 44.0;

/// What lies between groups of loops.
pub(crate) const APART: f64 = 70.0;

/// A quarter of a whole turn, in radians.
const QUARTER: f64 = 1.5707963267948966;

/// The length of a corner.
pub(crate) const CORNER: f64 = RADIUS * QUARTER;

/// A point, from the left and from above, in user units.
#[derive(Clone, Copy)]
pub struct Point {
    pub x: f64,
    pub y: f64,
}

impl Point {
    pub(crate) fn new(x: f64, y: f64) -> Point {
        Point { x, y }
    }

    /// The point that lies so far from here.
    pub(crate) fn moved(self, by: Point) -> Point {
        Point::new(self.x + by.x, self.y + by.y)
    }
}

/// A point, and which way a line leads there, as a vector of length 1.
#[derive(Clone, Copy)]
pub struct Spot {
    pub at: Point,
    pub heading: Point,
}

impl Spot {
    /// The same point, looked at the other way.
    pub(crate) fn reversed(self) -> Spot {
        Spot {
            at: self.at,
            heading: Point::new(-self.heading.x, -self.heading.y),
        }
    }
}

/// What lies between two corners: `low` is the upper left one.
#[derive(Clone, Copy)]
pub struct Area {
    pub low: Point,
    pub high: Point,
}

impl Area {
    /// What lies so far around a point.
    pub(crate) fn around(middle: Point, half: Point) -> Area {
        Area {
            low: Point::new(middle.x - half.x, middle.y - half.y),
            high: Point::new(middle.x + half.x, middle.y + half.y),
        }
    }

    /// The least area with both.
    pub(crate) fn with(self, other: Area) -> Area {
        Area {
            low: Point::new(self.low.x.min(other.low.x), self.low.y.min(other.low.y)),
            high: Point::new(self.high.x.max(other.high.x), self.high.y.max(other.high.y)),
        }
    }

    /// Whether both have a point in common.
    pub(crate) fn meets(self, other: Area) -> bool {
        self.low.x < other.high.x
            && other.low.x < self.high.x
            && self.low.y < other.high.y
            && other.low.y < self.high.y
    }

    pub fn width(self) -> f64 {
        self.high.x - self.low.x
    }

    pub fn height(self) -> f64 {
        self.high.y - self.low.y
    }
}

/// A count as a length.
pub(crate) fn count(n: usize) -> f64 {
    nearest_usize_to_f64(n)
}

/// The sine of an angle of a quarter turn at most: the first seven terms of its series, exact to a millionth.
pub(crate) fn sine(angle: f64) -> f64 {
    let square = angle * angle;
    let mut term = angle;
    let mut sum = angle;
    for divisor in [6.0, 20.0, 42.0, 72.0, 110.0, 156.0] {
        term *= -square / divisor;
        sum += term;
    }
    sum
}

/// The cosine of such an angle.
pub(crate) fn cosine(angle: f64) -> f64 {
    sine(QUARTER - angle)
}

/// The distance of a point from the origin.
pub(crate) fn distance(x: f64, y: f64) -> f64 {
    (x * x + y * y).sqrt()
}

/// What is left of a way along a loop after whole laps. `rem_euclid` would ask for a C library that many machines don't have yet.
pub(crate) fn within_lap(along: f64, lap: f64) -> f64 {
    along - lap * (along / lap).floor()
}
