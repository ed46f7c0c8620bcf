//! The lines of what faults cut off: of each link or node that is off from the start, or of each two of these, which sends are then cut off
//! from whom in some order of their copies, by names of the plan.
//!
//! Its modules, in the order in which to read them:
//! - `names`: nodes and ends of links by their names
//! - `lines`: what is off, and the line of what that cuts off
//! - `outages`: the lines of all faults
#![tactic(auto)]

mod lines;
mod names;
mod outages;

pub use lines::put_fault;
pub use names::{put_end, put_node};
pub use outages::{AtOnce, put_outages};
