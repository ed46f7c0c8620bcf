//! One type for all kinds of node: where a node stands, what happens to it, and what leaves it by each port.
//!
//! Its modules, in the order in which to read them:
//! - `place`: what kind of node stands at a place
//! - `role`: the roles of places, and the letters of their ports
//! - `octets`: octets that are owned, alone or together with others
//! - `event`: what happens to a node, and what it answers
//! - `refusal`: why a node refuses an event, as a word
//! - `entry`: what a record holds
//! - `growing`: room in lists that only grow
//! - `station`: a node that sends plain frames
//! - `port`: the ports of a node by their numbers
//! - `danh`: the events of a DANH
//! - `redbox`: the events of a RedBox
//! - `quadbox`: the events of a QuadBox
//! - `node`: a node of any kind
//! - `side`: what the ports of a place lead to
//! - `sending`: the frames that a node sends of its own
//! - `copies`: what leaves a node by a port, and what goes up
//! - `kept`: a node with its record
//! - `pass`: what a worker was answered
//! - `cell`: a node that threads share
//! - `units`: what another unit of time changes in a record
#![tactic(auto)]

mod cell;
mod copies;
mod danh;
mod entry;
mod event;
mod growing;
mod kept;
mod node;
mod octets;
mod pass;
mod place;
mod port;
mod quadbox;
mod redbox;
mod refusal;
mod role;
mod sending;
mod side;
mod station;
mod units;

pub use cell::NodeCell;
pub use copies::{
    FrameHead, FrameOctets, copy_out, going_on, head_out, is_left_by, plain_octets, ring_octets,
    spelled_out, spelled_up, up_out,
};
pub use entry::{Entry, Receipt};
pub use event::{Carried, Event, Outcome, Probe, StepFault};
pub use growing::make_room;
pub use kept::{Answer, Kept, holds_what_is_told};
pub use node::Node;
pub use octets::Octets;
pub use pass::Pass;
pub use place::Place;
pub use port::{quad_port, ring_port};
pub use role::Role;
pub use sending::{Sending, SentView, asked_frame, life_frame, ring_address, sent_by, sent_view};
pub use station::Station;
pub use units::same_in_finer_unit;
