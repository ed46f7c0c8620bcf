//! What a frame takes of a wire: its octets there, padding and all, and how long they take.
//!
//! Its modules, in the order in which to read them:
//! - `octets`: how many octets of a link a frame takes
//! - `time`: how long octets take
#![tactic(auto)]

mod octets;
mod time;

pub use octets::wire_octets;
pub use time::time_of;
