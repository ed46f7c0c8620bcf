//! When links are down, from a step of a scenario that cuts a link to the next that cuts or mends it; when nodes are off, while none of
//! their links is up; and when a scenario drains.
//!
//! Its modules, in the order in which to read them:
//! - `changing`: the steps that cut or mend a link, each with its moment
//! - `downing`: from each cut to the next change
//! - `switching`: the changes with which nodes go off and come on
//! - `draining`: the drains, each with its moment
#![tactic(auto)]

mod changing;
mod downing;
mod draining;
mod switching;

pub use changing::Change;
pub use downing::{Down, downs};
pub use draining::{Drain, drains};
pub use switching::{Switch, switches};
