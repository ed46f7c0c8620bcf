//! Addresses as numbers, so that they can be put in order and found.
//!
//! Its modules, in the order in which to read them:
//! - `number`: the number of an address
#![tactic(auto)]

mod number;

pub use number::number_of;
