//! The names of a finished run, by those of its nodes and by the streams of its sends.
//!
//! Its modules, in the order in which to read them:
//! - `naming`: names of nodes and entries
#![tactic(auto)]

mod naming;

pub use naming::{has_sends, names_of};
