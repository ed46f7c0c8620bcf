//! The steps that a world of nodes and links can take, why one is refused, and why a drain doesn't end.
//!
//! Its modules, in the order in which to read them:
//! - `step`: what may happen in a world, and why it doesn't
//! - `refusal`: why a step is refused or a drain doesn't end, as a word
#![tactic(auto)]

mod refusal;
mod step;

pub use step::{DrainFault, INJECT_LIMIT, Step, WorldFault};
