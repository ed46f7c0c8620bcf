//! Numbers of 16 bits that go round, of several groups that count by themselves: the runs between restarts, and what is missing in
//! them.
//!
//! Its modules, in the order in which to read them:
//! - `run`: numbers put into the run of their group, or into a new one
//! - `gaps`: numbers of a run that never came
//! - `elsewhere`: numbers of a run that others of its group had
#![tactic(auto)]

mod elsewhere;
mod gaps;
mod run;

pub use elsewhere::elsewhere_of;
pub use gaps::{Gap, gaps_of};
pub use run::{FORGET_TIME, InRun, Numbered, Restart, Runs, RunsSoFar};
