//! A plan's run in one call: what the plan means is played, and the report or the transcript of its run is written, as the bench writes it of
//! the plan's scenario. No scenario is formed between, so none of its limits stands in the way.
//!
//! Its modules, in the order in which to read them:
//! - `question`: what is asked of a plan's run
//! - `naming`: what the nodes and sends of a plan's run are called
//! - `unplayed`: why what a plan means has no finished run, in words
//! - `shown`: what is shown of a plan's run
//! - `telling`: how it is written and told
//! - `running`: the whole way, over a reader, two writers and files
#![tactic(auto)]

mod naming;
mod question;
mod running;
mod shown;
mod telling;
mod unplayed;

pub use hsr_options::{Asked, Form, Scope, Showing};
pub use hsr_plan_scenario::Ending;
pub use question::Question;
pub use running::plan_report_run;
