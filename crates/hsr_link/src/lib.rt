//! Links: two queues of copies, and what became of each copy that was put on them.
//!
//! Its modules, in the order in which to read them:
//! - `row`: what a link tells of each copy
//! - `words`: the words that texts have for directions and fates
//! - `queue`: the copies that wait in one direction
//! - `link`: the link and its calls, and the link in two
//! - `cell`: a link that threads share
#![tactic(auto)]

mod cell;
mod link;
mod queue;
mod row;
mod words;

pub use cell::LinkCell;
pub use link::{Link, Queues, takes_in_order};
pub use row::{Dir, Fate, Row};
