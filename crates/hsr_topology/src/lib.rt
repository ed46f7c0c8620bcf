//! Topologies: which nodes there are, and how their ports are joined.
//!
//! Its modules, in the order in which to read them:
//! - `end`: an end of a link
//! - `worker`: the numbers of workers
//! - `nodes`: what the nodes may be
//! - `links`: what the links may be
//! - `fault`: why nodes and links do not form a valid topology
//! - `topology`: the topology, its calls
//! - `same`: whether two topologies are the same
#![tactic(auto)]

mod end;
mod fault;
mod links;
mod nodes;
mod same;
mod topology;
mod worker;

pub use end::{End, is_same_end};
pub use fault::TopologyFault;
pub use links::is_used;
pub use same::{is_same_place, is_same_topology};
pub use topology::Topology;
pub use worker::{ager, port_worker};
