//! The copies of HSR frames that a capture has: which packets are copies, and what they say.
//!
//! Its modules, in the order in which to read them:
//! - `contents`: what a packet is: a copy of a tagged frame, or none
//! - `places`: a copy, read anew from its octets
//! - `alike`: whether two copies say the same
#![tactic(auto)]

mod alike;
mod contents;
mod places;

pub use alike::{has_right_size, says_same};
pub use contents::{Copy, NoCopy, Untagged, copy_of};
pub use places::{copy_at, size_of};
