//! The load of a finished run: how many frames and octets each channel carried, a direction of a link, and how many kbit/s that
//! was over the whole run and in its worst millisecond.
//!
//! Its modules, in the order in which to read them:
//! - `transit`: a copy that a channel carried
//! - `carrying`: what each channel carried
//! - `span`: how long copies went over the channels
//! - `window`: the worst millisecond of a channel
//! - `load`: the load of a channel
//! - `loading`: the loads of a run, its call
#![tactic(auto)]

mod carrying;
mod load;
mod loading;
mod span;
mod transit;
mod window;

pub use load::{ChannelLoad, Load};
pub use loading::load_of;
