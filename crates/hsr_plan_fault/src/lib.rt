//! How a fault of a plan is told: line, column, and what is wrong.
//!
//! Its modules, in the order in which to read them:
//! - `wiring`: why the nodes and links of a plan do not form a valid topology, and where that is
//! - `misplaced`: keys of the top that stand below a header
//! - `refusals`: the words of why a plan means nothing
//! - `telling`: the line of a fault, its call
//!
//! The lines are tested, and no contract tells their words.
#![tactic(auto)]

mod misplaced;
mod refusals;
mod telling;
mod wiring;

pub use telling::plan_fault_line;
