//! Which copies of a capture are of one frame.
//!
//! Its modules, in the order in which to read them:
//! - `caught`: copies as they were captured
//! - `noted`: copies without their payloads
//! - `frames`: the frame of each copy, its call
#![tactic(auto)]

mod caught;
mod frames;
mod noted;

pub use caught::{Caught, key_of};
pub use frames::{FRAME_TIME, frames_of};
pub use noted::{Noted, all_noted};
