//! What holds of the networks that plans mean: laws alone.
#![tactic(auto)]

mod law;

pub use law::{one_ring_is_a_ring, usual_addresses_differ};
