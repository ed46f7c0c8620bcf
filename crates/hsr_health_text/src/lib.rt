//! The report on the health of a ring, in words.
//!
//! Its modules, in the order in which to read them:
//! - `words`: numbers, names, addresses, moments, loads, times of day
//! - `interfaces`: the first line, and the lines of interfaces
//! - `points`: points, their directions, and when frames came one way alone
//! - `breaks`: where several points tell a break
//! - `sources`: sources and whom supervision tells of
//! - `kinds`: other packets, VLANs, tables
//! - `reasons`: reasons and the verdict
//! - `whole`: the whole, its call
#![tactic(auto)]

mod breaks;
mod interfaces;
mod kinds;
mod points;
mod reasons;
mod sources;
mod whole;
mod words;

pub use whole::report;
pub use words::put_name;
