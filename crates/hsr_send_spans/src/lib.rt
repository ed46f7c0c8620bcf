//! The sends of a scenario, from which step to which their copies may be under way, and which links are down meanwhile.
//!
//! Its modules, in the order in which to read them:
//! - `spans`: the sends and their spans, and what is asked of steps by their indexes
//! - `cuts`: which links are cut as the steps go on, and which are down in a span
#![tactic(auto)]

mod cuts;
mod spans;

pub use cuts::Cuts;
pub use spans::{above, first_steps, moment_after, spans_of, steps_from};
