//! Where a table of a finished run first failed its node, whatever the network: it forgot what was needed, took a new frame
//! for an old one by its number, or a RedBox gave a number late.
//!
//! Its modules, in the order in which to read them:
//! - `flaw`: where something was forgotten, mistaken or numbered late
//! - `keys`: the sources and numbers of an entry
//! - `marks`: what an egress noted
//! - `log`: what a node noted and heard
//! - `looking`: the first places of a record
//! - `clear`: what tells at once that there is none
//! - `flaws`: the first of all records, its call
#![tactic(auto)]

mod clear;
mod flaw;
mod flaws;
mod keys;
mod log;
mod looking;
mod marks;

pub use flaw::Flaw;
pub use flaws::first_flaw;
