//! The audit of a finished run: a certificate of delivery, or the first reason for doubt, of a ring of DANHs or of any
//! network; and its budget: whether duplicate tables are large enough for what was sent. What runs, their topologies
//! and the laws over them are is offered again, and so is who got what and how many entries were needed, so that who
//! audits needs this crate alone.
//!
//! Its modules, in the order in which to read them:
//! - `doubt`: why a run isn't certified
//! - `premises`: what a network asks of nodes and links
//! - `round`: whether nodes and links are a ring, and whether it lost copies on one link at most
//! - `certificate`: what the certificate of a ring lists
//! - `ring`: the audit of a ring of DANHs, its call
//! - `sends`: whether there is a send, and the first that isn't covered
//! - `covered`: which sends the law of networks covers, and which are to Stations
//! - `lossy`: the channels on which a send lost copies
//! - `shared`: what was found of sends that lost nothing, for those that are like them
//! - `cutoff`: the first send that doesn't come to a node
//! - `missed`: the lowest send to a Station that its RedBox didn't know each time
//! - `network`: the audit of any network, its call
//! - `moments`: the effective moments of a run's entries and sends
//! - `late`: the first arrival that comes late
//! - `breach`: what a budget is, and why a run isn't within it
//! - `budgeting`: whether a run is within budget, its call
#![tactic(auto)]

mod breach;
mod budgeting;
mod certificate;
mod covered;
mod cutoff;
mod doubt;
mod late;
mod lossy;
mod missed;
mod moments;
mod network;
mod premises;
mod ring;
mod round;
mod sends;
mod shared;

pub use breach::{Budget, BudgetFault};
pub use budgeting::{budget, most_sends};
pub use certificate::{Certificate, Certified};
pub use doubt::{AuditFault, Doubt};
pub use hsr_deliveries::{Deliveries, Delivery, Loss, deliveries, once_is_complete};
pub use hsr_finished_run::{CheckFault, Closed, Disagree, Parts, Planned, Records, passes_of};
pub use hsr_run_laws::{
    boxless, budget_keeps, budget_tells, exactly_once, no_storm, once_in_budget,
};
pub use hsr_table_demand::{Needed, legal_with_needed, needed};
pub use hsr_topology::{End, Topology, TopologyFault};
pub use network::{NetworkCertificate, audit_network};
pub use ring::audit;
