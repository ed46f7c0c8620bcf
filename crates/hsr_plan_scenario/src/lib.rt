//! The scenario that a plan means, as a text, and the whole way there from the plan's own text; and whether a text is a scenario.
//!
//! Its modules, in the order in which to read them:
//! - `sends`: when a scenario's orders send
//! - `naming`: how it spells addresses, the names of nodes and their ports
//! - `places`: how it spells nodes and links
//! - `steps`: how it spells steps, and how long their lines are
//! - `front`: what stands before the steps
//! - `spelling`: how a whole scenario is spelled in TOML
//! - `same`: whether a scenario is what a plan means
//! - `checking`: the text of a plan's scenario, checked against what the plan means
//! - `input`: the line that tells why a text isn't read
//! - `planning`: the whole way from a plan's text to its scenario's
//! - `judging`: whether a text is a scenario that can be played to its end
//! - `meant`: the run of what a plan means, without a scenario between, and what its nodes are called
#![tactic(auto)]

mod checking;
mod front;
mod input;
mod judging;
mod meant;
mod naming;
mod places;
mod planning;
mod same;
mod sends;
mod spelling;
mod steps;

pub use checking::{Trouble, moved, scenario_of_meaning, scenario_of_plan};
pub use hsr_text::{InputFault, read_text};
pub use judging::check_run;
pub use meant::{node_names, run_meant};
pub use planning::{Ending, Line, Told, complain, fail, give, line_of, plan_run, words};
pub use same::streams_meant;
