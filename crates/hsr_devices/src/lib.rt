//! The nodes of a finished run as devices: what came and left by each port, and what each node knows at the end.
//!
//! Its modules, in the order in which to read them:
//! - `counted`: what is counted of a record at a port
//! - `port`: where a port leads, its octets, and what was lost there
//! - `known`: the nodes and stations that a node knows
//! - `unheard`: of whom supervision never told a node
//! - `cells`: columns of a table
//! - `lines`: the rows of a device's table
//! - `describing`: what a node is, and what it knows, in words
//! - `listing`: the list of all devices, its call
#![tactic(auto)]

mod cells;
mod counted;
mod describing;
mod known;
mod lines;
mod listing;
mod port;
mod unheard;

pub use counted::{Counted, count, sums_are_counters};
pub use known::{Known, known_by};
pub use listing::devices;
pub use port::{PortLink, port_link};
