//! The times of a capture, and the point and the way of each direction.
ghost use Rattle.std.specs.Prelude.{◌≡◌, slice_index};
ghost use Rattle.hsr_sightings.specs.Ring.{point_of, way_of};

use hsr_frame_groups::Noted;
use std::marker::Model;

/// How long a node remembers a frame, in nanoseconds.
pub const FORGET_TIME: u64 = 400_000_000;

/// What is known of a capture before its copies are looked at. Times are nanoseconds since 1970.
#[derive(Drop)]
pub struct Ring<'a> {
    /// The first packet's moment.
    pub start: u64,
    /// The end of the capture.
    pub end: u64,
    /// Whether nothing at its edges is open.
    pub is_whole: bool,
    /// Of each direction its point.
    pub points: &'a [usize],
    /// Of each direction its way: the lane that most of its copies have.
    pub ways: &'a [u8],
}

impl<'a> Model for Ring<'a> {
    ghost use Rattle.hsr_sightings.specs.Ring.{Ring};

    ghost Value = { Ring };

    ghost view = { λ r. record { start = r.start; end = r.end; is_whole = r.is_whole; points = r.points.now; ways = r.ways.now } };
}

impl Ring<'_> {
    /// The point of a copy.
    pub fn point_of(&self, caught: &Noted) -> usize
        ensures { result ≡ point_of self.now caught.now }
    {
        self.points.get(caught.direction()).copied().unwrap_or(0)
    }

    /// The way of a direction.
    pub fn way_at(&self, direction: usize) -> u8
        ensures { result ≡ slice_index self.now.ways direction }
    {
        self.ways.get(direction).copied().unwrap_or(0)
    }

    /// The way of a copy.
    pub fn way_of(&self, caught: &Noted) -> u8
        ensures { result ≡ way_of self.now caught.now }
    {
        self.way_at(caught.direction())
    }
}
