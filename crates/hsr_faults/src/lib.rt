//! Which sends of a scenario are cut off from whom, in some order of their copies, where links and nodes are off from the start.
//!
//! Its modules, in the order in which to read them:
//! - `fault`: links and nodes that are off
//! - `faults`: each of them, and each two
//! - `nodes`: sets of nodes
//! - `channels`: sets of channels
//! - `ends`: the ends of channels
//! - `onward`: the channels that follow each channel, for one frame
//! - `search`: the search for the nodes that routes lead to
//! - `downs`: the channels that are down in the span of a send
//! - `groups`: sends that a fault cuts off alike
//! - `course`: what each fault looks at of such sends
//! - `outage`: what a fault cuts off
//! - `sweep`: a scenario, and what each fault cuts off
//! - `law`: what holds with a fault that cuts no send off
#![tactic(auto)]

mod channels;
mod course;
mod downs;
mod ends;
mod fault;
mod faults;
mod groups;
mod law;
mod nodes;
mod onward;
mod outage;
mod search;
mod sweep;

pub use fault::{Fault, Off};
pub use faults::{faults_of_one, faults_of_two};
pub use law::{leaves, sweeps};
pub use nodes::Nodes;
pub use outage::{Cut, Outage};
pub use sweep::Sweep;
