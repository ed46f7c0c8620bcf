//! The links of a world with the outboxes and hands of their ports: what a port has still to put, and what it holds.
//!
//! Its modules, in the order in which to read them:
//! - `lane`: one direction of a link, with what its ports keep
//! - `span`: a link, with what the ports at its ends keep
//! - `starting`: the links that a world begins with
//! - `spot`: where a port sends
//! - `port`: the ports of a world, each with where it receives and sends
//! - `touching`: the links that touch a node
//! - `hand`: what a receiving port holds
//! - `giving`: what a new entry of a node gives to the spans
//! - `ended`: whether a world has come to its end
//! - `parting`: links apart from their rows, and with them again
#![tactic(auto)]

mod ended;
mod giving;
mod hand;
mod lane;
mod parting;
mod port;
mod span;
mod spot;
mod starting;
mod touching;

pub use ended::are_ended;
pub use giving::{commit, prepare};
pub use hand::{change_hand, clear};
pub use lane::Lane;
pub use parting::{Bare, Parted, join, part};
pub use port::{Port, new_ports, port_fault, port_in, port_number, port_of};
pub use span::{Span, cut_at, inject_at, mend_at, take_at};
pub use spot::{Spot, put_at_spot};
pub use starting::{expect_rows, new_spans};
pub use touching::{new_touching, touching_of};
