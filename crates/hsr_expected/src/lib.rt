//! The addresses of the nodes of a plan: those that a capture of its network is expected to have.
//!
//! Its modules, in the order in which to read them:
//! - `expected`: the addresses, by the text of a plan
#![tactic(auto)]

mod expected;

pub use expected::{ExpectedFault, expected_of};
