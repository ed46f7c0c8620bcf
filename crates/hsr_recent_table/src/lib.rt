//! Tables of what came lately: what is older may be forgotten, so that their room is bounded by what comes in a time.
//!
//! Its modules, in the order in which to read them:
//! - `table`: the table, what is put into it and found in it
//! - `previous`: things with moments and keys, and the previous one of each
#![tactic(auto)]

mod previous;
mod table;

pub use previous::{Keyed, Previous};
pub use table::RecentTable;
