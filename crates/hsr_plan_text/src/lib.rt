//! Plans: rings, streams and events in a planner's words, written in TOML.
//!
//! Its modules, in the order in which to read them:
//! - `word`: a word of a plan
//! - `fault`: why a text is no plan
//! - `plan`: what a plan says
//! - `table`: which keys a table may have, and the moments and gaps of a plan
//! - `words`: the words that texts of a plan spell
//! - `network`: what the keys of a plan say of its nodes
//! - `publishing`: by what receivers know a stream
//! - `streams`: the streams of a plan
//! - `events`: the events of a plan
//! - `moving`: how the copies of a plan move
//! - `reading`: how a text is read as a plan
#![tactic(auto)]

mod events;
mod fault;
mod moving;
mod network;
mod plan;
mod publishing;
mod reading;
mod streams;
mod table;
mod word;
mod words;

pub use fault::{Key, PlanFault, Refusal, Spot, What};
pub use hsr_toml::TEXT_LIMIT;
pub use plan::{
    Addressed, Behind, Deed, Event, Framing, InMode, Kind, LinkEnd, Moves, Naming, Network,
    Outline, Pace, Plan, Ring, SampleRate, Stream, Switching, Target, Timing, Transfer, Wire,
};
pub use reading::read;
pub use word::Word;
