//! Any network of nodes and links, one ring or many, in one world: what a step makes of it, what holds after any steps, and
//! how a scenario is played in it to a finished run.
//!
//! Its modules, in the order in which to read them:
//! - `entering`: an event that a worker brings to a node
//! - `pending`: what is left to do, and what a drain does next
//! - `starting`: the nodes that a world begins with
//! - `closing`: what a world hands over where it is closed
//! - `fit`: what the types of the code tell of steps and nodes
//! - `running`: a world in code, and its steps
//! - `world`: a world, its calls
//! - `playing`: what orders do in a world
//! - `finishing`: the finished run that orders lead to
#![tactic(auto)]

mod closing;
mod entering;
mod finishing;
mod fit;
mod pending;
mod playing;
mod running;
mod starting;
mod world;

pub use finishing::{Unfinished, finished};
pub use hsr_world_laws::{
    always_closes, always_finishes, always_frames, always_numbered_first, always_of_send,
    always_origins, always_placed, always_planned, always_sent, always_sound, first_sound,
    fit_frames, only_quiet_closes, step_placed,
};
pub use hsr_world_steps::{DrainFault, Step, WorldFault};
pub use playing::play;
pub use world::World;
