//! How many entries the duplicate tables of a finished run needed, node by node, and how many moments lie in a window of 800
//! milliseconds; and what an entry asks of the notes of its node, for the crates above.
//!
//! Its modules, in the order in which to read them:
//! - `windows`: how crowded the windows of moments are
//! - `tally`: how many notes an egress made, and the latest of each send
//! - `wanted`: where what comes from a ring is wanted
//! - `reading`: what an entry asks of the notes, and what it adds to them
//! - `log`: what a node noted and heard
//! - `most`: the greatest number that was needed
//! - `needing`: how many entries a run needed, and a node of it, its calls
//! - `law`: with which tables the records of a run are legal
#![tactic(auto)]

mod law;
mod log;
mod most;
mod needing;
mod reading;
mod tally;
mod wanted;
mod windows;

pub use law::legal_with_needed;
pub use most::Needed;
pub use needing::{needed, needed_at};
pub use reading::{Reading, hear, noted_at, read};
pub use windows::{most_crowded, most_of};
