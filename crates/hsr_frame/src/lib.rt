//! Addresses, the octets of frames, and the small types that all nodes share.
//!
//! Its modules, in the order in which to read them:
//! - `mac`: addresses and their text
//! - `layout`: where the parts of a frame stand, and how long they are
//! - `fault`: why a text is no address, octets are no frame, a send is refused
//! - `octets`: octets at a place, and octets put at the end
//! - `raw`: frames before any HSR tag is looked for
//! - `node`: what all kinds of node share
//! - `words`: the words that texts have for modes, ring ports and causes
//! - `egress`: where a frame can leave a node
//! - `counters`: what a node counts
//! - `send`: which sends a node refuses
//! - `refusal`: why a node refuses to send, as a word
#![tactic(auto)]

mod counters;
mod egress;
mod fault;
mod layout;
mod mac;
mod node;
mod octets;
mod raw;
mod refusal;
mod send;
mod words;

pub use counters::Counters;
pub use egress::{Exits, Wants, is_supervision};
pub use fault::{FrameFault, MacFault, NoMemory, SendFault, Spent};
pub use layout::{
    ETHERTYPE_HSR, ETHERTYPE_SUPERVISION, ETHERTYPE_VLAN, MAX_FRAME, MAX_PAYLOAD, MAX_REST, TAG_LEN,
};
pub use mac::Mac;
pub use node::{About, Cause, Life, Mode, RingPort, STEP_LIMIT};
pub use octets::{copied, put, put_head, put_u16, u16_at};
pub use raw::{Head, Raw};
pub use send::send_fault;
