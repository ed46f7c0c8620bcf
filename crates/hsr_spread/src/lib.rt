//! The least, the lower median and the greatest of numbers, and of what is told of each of several.
//!
//! Its modules, in the order in which to read them:
//! - `spread`: the spread of numbers
#![tactic(auto)]

mod spread;

pub use spread::{Amounts, Spread, Told, spread_of};
