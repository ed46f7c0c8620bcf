//! How a frame that came to a ring port is forwarded: which egresses want it, which remember it, the verdict and what is
//! counted; what DANH, RedBox and QuadBox do alike.
//!
//! Its modules, in the order in which to read them:
//! - `arrival`: the key and the hearing of an arrival
//! - `wanted`: which egresses of a node on a ring want it
//! - `judged`: the verdict on it, and what is counted
//! - `slot`: what one egress remembers, if it is there
//! - `tables`: what all egresses remember, and the verdict by that
//! - `number`: the numbers of a node's own frames
#![tactic(auto)]

mod arrival;
mod judged;
mod number;
mod slot;
mod tables;
mod wanted;

pub use arrival::{hear, key_in, learn};
pub use judged::{Judged, count};
pub use number::NUMBER_RANGE;
pub use tables::EgressTables;
pub use wanted::ring_wants;
