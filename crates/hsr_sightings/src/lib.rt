//! What the copies of a capture tell of one another: which came again, late, overtaken, or as a clash; and each frame as each point saw
//! it.
//!
//! Its modules, in the order in which to read them:
//! - `ring`: the times of a capture, and the point and the way of each direction
//! - `again`: how often a direction carried a frame
//! - `sighting`: a frame as a point saw it
//! - `late`: copies of frames that nodes have forgotten, and how many frames a table has to hold
//! - `clash`: copies that begin frames, and those that say something else
//! - `overtaken`: copies behind a greater number
#![tactic(auto)]

mod again;
mod clash;
mod late;
mod overtaken;
mod ring;
mod sighting;

pub use again::{Carried, carried_of};
pub use clash::{begins_of, clashes_of};
pub use late::{Crowd, crowds_of, is_late, lates_of, needed_of};
pub use overtaken::{Overtaken, overtaken_of};
pub use ring::{FORGET_TIME, Ring};
pub use sighting::{Fate, Sighting, Sightings, fate_of, sightings_of, skew_of};
