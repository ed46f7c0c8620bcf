//! A DANH: a node with one address and two ring ports.
//!
//! Its modules, in the order in which to read them:
//! - `danh`: the node, its calls
//! - `past`: the law over any calls
#![tactic(auto)]

mod danh;
mod past;

pub use danh::{Danh, Sent, Verdict};
pub use past::answers_as_past;
