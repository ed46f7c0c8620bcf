//! What a finished run is, and the laws over all finished runs: exactly once, no storm, and the budget.
#![tactic(auto)]

mod law;

pub use law::{boxless, budget_keeps, budget_tells, exactly_once, no_storm, once_in_budget};
