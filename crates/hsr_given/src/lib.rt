//! What a text is that was given in place of another.
//!
//! Its modules, in the order in which to read them:
//! - `given`: what a text is that is no transcript
//! - `unnamed`: what a text is that is no scenario of a run
#![tactic(auto)]

mod given;
mod unnamed;

pub use given::{Given, given_of};
pub use unnamed::{Unnamed, no_text, other, unread};
