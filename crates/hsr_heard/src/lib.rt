//! What supervision frames say in a capture, whom they tell of, and when they were silent (IEC 62439-3 clause 5.7).
//!
//! Its modules, in the order in which to read them:
//! - `heard`: what supervision frames say
//! - `abouts`: whom supervision tells of, and when it was silent
#![tactic(auto)]

mod abouts;
mod heard;

pub use abouts::{About, Abouts, SILENT, Silence, abouts_of};
pub use heard::{Heard, Hearing, hearing_of};
