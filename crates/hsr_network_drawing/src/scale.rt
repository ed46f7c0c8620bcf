//! How far boxes stand from one another, by how wide they are and which way loops follow one another.
use crate::measure::{APART, BOX_HEIGHT, Point, REACH};
use crate::stops::Loop;

/// Over so many nodes boxes stand closer.
const CLOSE: usize = 24;

/// For which room a network is drawn: a wide one as a screen or paper, or a tall one as a telephone.
#[derive(Clone, Copy, PartialEq, Eq)]
pub enum Format {
    Wide,
    Tall,
}

/// What boxes of a group ask for. Loops follow one another to the right, or downwards where it is turned.
#[derive(Clone, Copy)]
pub(crate) struct Scale {
    pub format: Format,
    pub is_turned: bool,
    pub box_width: f64,
    /// The distance of boxes on a side above or below, and on one at the left or right, before it is turned.
    pub pitch: Point,
}

impl Scale {
    /// The width of a loop by itself to its height.
    pub(crate) fn proportion(self) -> f64 {
        match self.format {
            Format::Wide => 2.0,
            Format::Tall => 0.85,
        }
    }

    /// How far a Station and its interlink reach from a loop above or below it, before it is turned.
    pub(crate) fn station_above(self) -> f64 {
        REACH
            + 1.5
                * if self.is_turned {
                    self.box_width
                } else {
                    BOX_HEIGHT
                }
    }

    /// How far they reach from a loop at its right or left.
    pub(crate) fn station_beside(self) -> f64 {
        REACH
            + 1.5
                * if self.is_turned {
                    BOX_HEIGHT
                } else {
                    self.box_width
                }
    }

    /// What a box covers between loops that follow one another.
    pub(crate) fn box_across(self) -> f64 {
        if self.is_turned {
            BOX_HEIGHT
        } else {
            self.box_width
        }
    }

    /// What lies between two children.
    pub(crate) fn between_children(self) -> f64 {
        if self.is_turned {
            self.box_width + 34.0
        } else {
            APART
        }
    }

    /// What lies between loops that follow one another: a box that both share covers it.
    pub(crate) fn between_loops(self) -> f64 {
        if self.is_turned {
            BOX_HEIGHT + 34.0
        } else {
            self.box_width + 54.0
        }
    }

    /// How high a loop is at least.
    pub(crate) fn least_height(self) -> f64 {
        if self.is_turned { 0.0 } else { 120.0 }
    }
}

/// What boxes of a network ask for.
#[derive(Clone, Copy)]
pub(crate) struct Scales {
    pub format: Format,
    /// Whether loops that share boxes follow one another downwards.
    pub is_turned: bool,
    pub nodes: usize,
    pub box_width: f64,
}

impl Scales {
    /// What boxes of a group ask for.
    pub(crate) fn of(self, is_alone: bool) -> Scale {
        let is_turned = self.is_turned && !is_alone;
        let closer = if self.nodes > CLOSE { 18.0 } else { 0.0 };
        let along = self.box_width + 46.0 - closer;
        let across = BOX_HEIGHT + 54.0 - closer;
        Scale {
            format: self.format,
            is_turned,
            box_width: self.box_width,
            pitch: if is_turned {
                Point::new(across, along)
            } else {
                Point::new(along, across)
            },
        }
    }

    /// What boxes of a loop ask for.
    pub(crate) fn at(self, loops: &[Loop], number: usize) -> Scale {
        match loops.get(number) {
            Some(it) => self.of(it.is_alone),
            None => self.of(true),
        }
    }
}
