//! How a fault of a scenario is told in plain words, with line and column, what is wrong, and what would be right: a fault of its text,
//! a step that was refused, and why its run stops or can't be closed.
//!
//! Its modules, in the order in which to read them:
//! - `keys`: which keys the tables of a scenario have
//! - `wiring`: which node or link keeps nodes and links from being a valid topology
//! - `words`: what is wrong with a scenario, and what would be right
//! - `telling`: the line of a fault, its call
//! - `refused`: the line of a step that was refused, its call
//! - `reasons`: why the run of a scenario stops, or can't be closed
//!
//! The lines are tested, and no contract tells their words.
#![tactic(auto)]

mod keys;
mod reasons;
mod refused;
mod telling;
mod wiring;
mod words;

pub use reasons::{words_of_check, words_of_step};
pub use refused::refused_step_line;
pub use telling::scenario_fault_line;
