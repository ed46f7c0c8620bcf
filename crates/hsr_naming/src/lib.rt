//! What a report calls the nodes, entries and ports of a run: their numbers, or their names.
//!
//! Its modules, in the order in which to read them:
//! - `names`: the names of a run
//! - `naming`: nodes, entries and ports as a report calls them, put into texts
#![tactic(auto)]

mod names;
mod naming;

pub use names::{EntryName, Names};
pub use naming::Naming;
