//! The HSR tag: which octets are a tagged frame, and how a frame is tagged and untagged.
//!
//! Its modules, in the order in which to read them:
//! - `frame`: frames with and without an HSR tag, and their octets
//! - `spelled`: the octets of a frame in two pieces
//! - `payload`: a payload that stands elsewhere, or a short one
//! - `view`: frames whose payload stands where it was read
//! - `seen`: what octets are
#![tactic(auto)]

mod frame;
mod payload;
mod seen;
mod spelled;
mod view;

pub use frame::{Frame, Tagged};
pub use payload::{Payload, SHORT_PAYLOAD};
pub use seen::{Seen, classify, look_at};
pub use spelled::{HEAD_ROOM, Spelled};
pub use view::{EitherView, FrameView, SeenView, TaggedView};
