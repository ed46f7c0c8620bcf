//! A QuadBox: a node with two ports in each of two rings, that has no address.
//!
//! Its modules, in the order in which to read them:
//! - `wanted`: which ports want an arrival
//! - `quadbox`: the node, its calls
//! - `past`: the law over any calls
#![tactic(auto)]

mod past;
mod quadbox;
mod wanted;

pub use past::answers_as_past;
pub use quadbox::{QuadBox, QuadVerdict};
pub use wanted::{QuadPort, arrival_wants};
