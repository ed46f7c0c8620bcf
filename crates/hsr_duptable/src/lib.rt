//! The duplicate table of an egress: which frames passed there lately (IEC 62439-3 clause 5.3).
//!
//! Its modules, in the order in which to read them:
//! - `note`: what a table holds
//! - `chain`: notes in chains, and the search along one
//! - `table`: the table, and its law
#![tactic(auto)]

mod chain;
mod note;
mod table;

pub use note::{ENTRY_FORGET, Key, Note};
pub use table::{DupTable, answers_as_log};
