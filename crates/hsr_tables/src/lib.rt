//! The tables of addresses that were heard: those behind a RedBox, and the nodes of the ring.
//!
//! Its modules, in the order in which to read them:
//! - `times`: how many addresses are known, and for how long
//! - `proxies`: the addresses behind a RedBox
//! - `nodes`: the nodes of the ring
#![tactic(auto)]

mod nodes;
mod proxies;
mod times;

pub use nodes::{NodeRow, NodeTable, known_nodes};
pub use proxies::{ProxyTable, known_proxies};
pub use times::{LIFE_CHECK, NODE_FORGET, ROW_LIMIT};
