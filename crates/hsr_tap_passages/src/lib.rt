//! What a capture shows of a device: which of its packets passed which end, and which way.
//!
//! Its modules, in the order in which to read them:
//! - `fault`: why a capture doesn't fit a device
//! - `interfaces`: what each interface is
//! - `heading`: which way a packet passed
//! - `passages`: all of it
#![tactic(auto)]

mod fault;
mod heading;
mod interfaces;
mod passages;

pub use fault::{PassageFault, put_passage_fault};
pub use passages::{Shown, shown_of};
