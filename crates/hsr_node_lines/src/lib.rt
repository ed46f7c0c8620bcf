//! A capture as input of `hsr_bench node`: what came to a DANH, and what it sent.
//!
//! Its modules, in the order in which to read them:
//! - `fault`: why there are no lines
//! - `taps`: what each interface of the capture is to the device
//! - `passage`: where a packet passes the device, and which way
//! - `spelling`: the lines, written
//! - `own`: which copies begin sends of the device that no interface shows
//! - `told`: what was told so far, and what it is behind one more packet
//! - `lines`: a whole capture, its call
#![tactic(auto)]

mod fault;
mod lines;
mod own;
mod passage;
mod spelling;
mod taps;
mod told;

pub use fault::LinesFault;
pub use lines::{Lines, lines_of};
