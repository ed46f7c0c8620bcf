//! What `certify` tells of a scenario, over a reader and a writer: whether it certifies delivery, whatever the order in which its copies move.
//!
//! Its modules, in the order in which to read them:
//! - `question`: what is asked of a scenario
//! - `running`: the verdict on the scenario that a text means, and its line
#![tactic(auto)]

mod question;
mod running;

pub use question::Question;
pub use running::certify_run;
