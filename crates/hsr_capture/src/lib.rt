//! Finished runs as captures in the format pcapng: a packet for each copy, with a comment on what became of it.
//!
//! Its modules, in the order in which to read them:
//! - `comments`: what a capture says in words
//! - `packets`: interfaces and packets
//! - `capturing`: the whole capture, its call
#![tactic(auto)]

mod capturing;
mod comments;
mod packets;

pub use capturing::capture;
pub use hsr_pcapng::BlockFault;
pub use packets::put_shown_comment;
