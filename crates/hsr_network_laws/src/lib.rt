//! What holds of each closed run of a network, that is, of rings and other nodes joined in any way.
#![tactic(auto)]

mod law;

pub use law::{late_decides, lives_stay, once_in_network, once_to_station, ring_is_crossed};
