//! Stimuli for a device: frames that try the rules in the table of docs/TAP.md, what the reference node answers, and both as a
//! capture and as a list.
//!
//! Its modules, in the order in which to read them:
//! - `rule`: which rule a stimulus tries, and what a device that follows it does
//! - `shape`: what a stimulus looks like, and its octets
//! - `scene`: stimuli, and what those of a scene have in common
//! - `ring`: what comes by a ring
//! - `supervisions`: supervision, and octets that are no frame
//! - `memory`: what a table remembers
//! - `stations`: what comes by an interlink, and whom a RedBox knows
//! - `scenes`: all stimuli for a device
//! - `playing`: what the reference node answers
//! - `telling`: the list of stimuli and answers
//! - `capturing`: the capture of stimuli
//! - `device`: all of it for a device that a document describes
#![tactic(auto)]

mod capturing;
mod device;
mod memory;
mod playing;
mod ring;
mod rule;
mod scene;
mod scenes;
mod shape;
mod stations;
mod supervisions;
mod telling;

pub use capturing::capture;
pub use device::{NoStimuli, Shown, stimuli_for};
pub use playing::{Tried, answers, reached, unlike};
pub use rule::Rule;
pub use scene::Stimulus;
pub use scenes::stimuli;
pub use shape::{Form, Load, Shape, Tag, Tlv, Told};
pub use telling::list_text;
