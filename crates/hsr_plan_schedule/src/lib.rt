//! What a plan has happen, and when: its occasions in order, as the orders of a scenario, with topology and capacity.
//!
//! Its modules, in the order in which to read them:
//! - `occasion`: what happens at the moments of a plan
//! - `senders`: who sends, and to whom
//! - `events`: the events of a plan as occasions
//! - `changes`: events that change something
//! - `lives`: when supervision frames are sent
//! - `publication`: what a stream publishes, and which of its frames is meant
//! - `payloads`: the payload of a frame of a stream
//! - `sends`: when the frames of streams are sent
//! - `occasions`: all that happens in a plan
//! - `setting`: where the occasions of a plan take place
//! - `hearing`: what RedBoxes hear of the stations behind them
//! - `naming`: the names of a plan's streams
//! - `publishing`: by what receivers know the streams of a plan
//! - `orders`: the orders of a scenario that tell what happens in a plan
//! - `room`: how many copies may wait in each direction of a link
//! - `meaning`: what a plan means
#![tactic(auto)]

mod changes;
mod events;
mod hearing;
mod lives;
mod meaning;
mod naming;
mod occasion;
mod occasions;
mod orders;
mod payloads;
mod publication;
mod publishing;
mod room;
mod senders;
mod sends;
mod setting;

pub use meaning::{Meaning, meaning_of};
pub use occasion::{Happening, Occasion, Sender, Sent};
