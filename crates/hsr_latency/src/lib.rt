//! The latency of a finished run: at each node that took up a frame, how long the slowest took from send to arrival, and the slowest
//! copy of a send of which another copy went up.
//!
//! Its modules, in the order in which to read them:
//! - `delay`: how long a send took
//! - `delaying`: how long each took that came to a node
//! - `greatest`: the one that took longest
//! - `latency`: the latency of a node
//! - `latencies`: the latencies of a run, a call
//! - `taken`: how long each send of a run took to each node
//! - `grouped`: sends in groups, and of each group the one that took longest, a call
#![tactic(auto)]

mod delay;
mod delaying;
mod greatest;
mod grouped;
mod latencies;
mod latency;
mod taken;

pub use delay::Delay;
pub use grouped::{Member, longest_of};
pub use latencies::latency_of;
pub use latency::{Latency, NodeLatency};
