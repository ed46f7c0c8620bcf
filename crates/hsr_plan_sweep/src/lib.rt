//! What becomes of a plan where each link and each node, one by one or two at a time, is off from a moment on.
//!
//! Its modules, in the order in which to read them:
//! - `asked`: what is asked of a sweep
//! - `cases`: what is off in turn
//! - `variants`: a plan in which that is off
//! - `audience`: at whom a send is due
//! - `sendings`: of which stream each send of a run is
//! - `counting`: what is counted of a finished run
//! - `running`: a plan's run, counted
//! - `playing`: the runs of all cases, several at a time
//! - `progress`: how far a sweep is, as a terminal shows it
//! - `verdict`: whether something is in doubt, and the single points of failure
//! - `lines`: the lines of a sweep
//! - `sweeping`: the sweep over a reader and two writers, its call
#![tactic(auto)]

mod asked;
mod audience;
mod cases;
mod counting;
mod lines;
mod playing;
mod progress;
mod running;
mod sendings;
mod sweeping;
mod variants;
mod verdict;

pub use asked::{Asked, Part};
pub use audience::Audience;
pub use cases::Case;
pub use counting::{Count, Miss, Outcome, counted, outcomes, stream_at};
pub use lines::put_found;
pub use playing::Played;
pub use sendings::streams_of;
pub use sweeping::{SweptPlan, naming_of, play_plan, read_plan, sweep_run};
pub use verdict::is_in_doubt;
