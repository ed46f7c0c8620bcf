//! More about how a run ended, in plain words: what a fault or a doubt means, where it is, and what to do.
//!
//! Its modules, in the order in which to read them:
//! - `lines`: an explanation, line by line
//! - `given`: what a text is that isn't what was asked for
//! - `naming`: nodes, entries and links by their names
//! - `losing`: which links lost copies
//! - `circling`: on which links copies circle
//! - `faults`: why there is no run
//! - `doubts`: why a run isn't certified
//! - `budgets`: why a run isn't within the budget of its tables
//!
//! What is said is tested, and no contract tells it. A report and a status are the same with it and without it.
#![tactic(auto)]

mod budgets;
mod circling;
mod doubts;
mod faults;
mod given;
mod lines;
mod losing;
mod naming;

pub use budgets::explain_budget;
pub use doubts::explain_finding;
pub use faults::{
    explain_check, explain_fine, explain_scenario, explain_step, explain_unsettled, explain_words,
};
pub use lines::{Explanation, put_explanation};
pub use naming::names_in;
