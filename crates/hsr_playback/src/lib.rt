//! What the reference node answers to what a capture shows of a device: the copies that are expected of the device, and those that were
//! observed.
//!
//! Its modules, in the order in which to read them:
//! - `passage`: a packet that passed an end of the device
//! - `taps`: which ends are tapped, and which way
//! - `own`: the device's own frames that no interface shows
//! - `taken`: the numbers that the reference takes over
//! - `known`: the numbers by which it knows frames of the ring
//! - `asked`: what a passage asks of the reference
//! - `reference`: the reference node, and the numbers that it gives
//! - `expected`: the copies that it lets out
//! - `playing`: all passages, played to it
#![tactic(auto)]

mod asked;
mod expected;
mod known;
mod own;
mod passage;
mod playing;
mod reference;
mod taken;
mod taps;

pub use expected::Expected;
pub use own::own_begins;
pub use passage::{Heading, Passage};
pub use playing::{Answer, Played, Said, play};
pub use taken::{Jump, Taken, jumps_of};
pub use taps::Taps;
