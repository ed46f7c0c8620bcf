//! The packets of a capture in the order of time, and how far a file is out of it.
//!
//! Its modules, in the order in which to read them:
//! - `disorder`: how far a file is out of the order of time
//! - `sorting`: its packets in that order
#![tactic(auto)]

mod disorder;
mod sorting;

pub use disorder::{Disorder, disorder_of};
pub use sorting::sort_by_time;
