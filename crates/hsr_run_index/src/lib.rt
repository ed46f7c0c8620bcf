//! Indexes over the records and links of a run, for the check that finishes it: ends of links, numbers of sends,
//! copies, each as often, and entries that come next.
//!
//! Its modules, in the order in which to read them:
//! - `ends`: the ends that links join, by an index
//! - `numbers`: the numbers that nodes gave to sends, by an index
//! - `counts`: whether copies are as often in one list as in another
//! - `passing`: what an entry passed, held against a copy
//! - `agreement`: whether what was put and taken is what was passed and came
//! - `places`: a place for each of some numbers, by an index
//! - `turns`: which entries of a worker come next in a record, by an index
#![tactic(auto)]

mod agreement;
mod counts;
mod ends;
mod numbers;
mod passing;
mod places;
mod turns;

pub use agreement::{Passage, came_by, passed_by, puts_fit, takens_fit};
pub use counts::{Counts, Key, count_of, count_one, key_of};
pub use ends::Ends;
pub use numbers::Numbers;
pub use passing::{Seen, look_at_pass};
pub use places::Places;
pub use turns::Turns;
