//! The verdict on a scenario in any order, and its line: a word, and by numbers what it names.
//!
//! Its modules, in the order in which to read them:
//! - `coarse`: a scenario without its own moves of copies
//! - `verdict`: what is found of a scenario
//! - `line`: the line of a verdict
#![tactic(auto)]

mod coarse;
mod line;
mod verdict;

pub use coarse::make_coarse;
pub use line::put_verdict;
pub use verdict::{Verdict, found};
