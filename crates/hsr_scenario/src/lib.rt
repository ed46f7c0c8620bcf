//! Scenarios: the nodes and links of a bench and the steps that it takes, written in TOML.
//!
//! Its modules, in the order in which to read them:
//! - `fault`: why a text is no scenario
//! - `keys`: which keys each table of a scenario may have
//! - `table`: which keys a table may have
//! - `words`: the words that texts of a scenario spell
//! - `name`: the names of nodes
//! - `nodes`: the nodes of a scenario
//! - `links`: the links of a scenario, and the names of nodes and ends that are used
//! - `steps`: the steps of a scenario
//! - `scenario`: scenarios
//! - `reading`: how a text is read as a scenario
//! - `streams`: from which streams the sends of a scenario are, node by node
//! - `naming`: the names of a scenario's nodes, and from which streams its sends are
//! - `law`: what a scenario lists, and which of its tables has its fault
#![tactic(auto)]

mod fault;
mod keys;
mod law;
mod links;
mod name;
mod naming;
mod nodes;
mod reading;
mod scenario;
mod steps;
mod streams;
mod table;
mod words;

pub use fault::{Key, ScenarioFault, Spot, What};
pub use hsr_toml::TEXT_LIMIT;
pub use keys::{
    AGE_KEYS, AT_LINK_KEYS, AT_PORT_KEYS, CLOCK_KEYS, DRAIN_KEYS, INJECT_KEYS, LIFE_KEYS,
    LINK_KEYS, QUADBOX_KEYS, RING_KEYS, SEND_KEYS, STATION_KEYS, TAKE_KEYS, TOP_KEYS,
};
pub use law::{fault_is_first, means_its_tables};
pub use naming::{Names, read_names};
pub use reading::read;
pub use scenario::Scenario;
pub use steps::Order;
pub use streams::{Sending, streams_of};
