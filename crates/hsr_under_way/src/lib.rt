//! What a step of a world makes of the copies that are under way, of records, losses and cuts.
#![tactic(auto)]

mod law;

pub use law::steps_on;
