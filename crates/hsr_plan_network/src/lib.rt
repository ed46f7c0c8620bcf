//! The nodes and links that a plan means.
//!
//! Its modules, in the order in which to read them:
//! - `names`: the names in the rings of a plan
//! - `checks`: what names a plan may not have
//! - `places`: the addresses, modes and kinds of the nodes of a plan
//! - `nodes`: the nodes of a plan
//! - `addresses`: whose an address is
//! - `links`: the links of a plan
//! - `wiring`: the nodes and the topology that a plan means
#![tactic(auto)]

mod addresses;
mod checks;
mod links;
mod names;
mod nodes;
mod places;
mod wiring;

pub use names::{is_in, number};
pub use nodes::Node;
pub use wiring::{Wired, wire};
