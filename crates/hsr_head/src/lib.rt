//! The head of a transcript, read before the rest is: it tells the size of the tables, which a reader has to know.
//!
//! Its modules, in the order in which to read them:
//! - `head`: the head of a text, read before the rest is
//! - `told`: the size of tables of which it tells
#![tactic(auto)]

mod head;
mod told;

pub use head::{front, read_head};
pub use told::told_size;
