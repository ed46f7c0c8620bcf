//! Laws over the record of one node of a run, whether the run is closed or not.
#![tactic(auto)]

mod law;

pub use law::{few_since_keep, leaves_once, rivals_keep};
