//! The taps of a capture: which packets are looked at, which directions its interfaces have and to which points they belong, and the
//! copies that came by them, in the order of time.
//!
//! Its modules, in the order in which to read them:
//! - `choice`: what is asked of interfaces, taps and points
//! - `direction`: the directions of an interface, by number
//! - `tally`: what came at each interface
//! - `points`: directions that belong together
//! - `tapping`: the copies and the strays of a capture, and the way of each direction
#![tactic(auto)]

mod choice;
mod direction;
mod points;
mod tally;
mod tapping;

pub use choice::{Choice, PointAsked, TapsAsked};
pub use direction::{DIRECTIONS, Part, Taps, direction_of, interface_of, part_of};
pub use points::{Point, Points, points_of};
pub use tally::{Tally, looked_at, tallies_of};
pub use tapping::{Came, Stray, Tapped, tap};
