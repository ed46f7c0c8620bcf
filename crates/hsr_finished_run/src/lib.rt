//! A finished run, and the check that makes one: whether records, rows and receipts tell of one run that came to its end.
//!
//! Its modules, in the order in which to read them:
//! - `planned`: what a run was meant to do
//! - `records`: all that a run has left
//! - `parts`: all that a run is checked by
//! - `disagree`: why the parts of a run don't agree
//! - `ends`: the ends of a link, by direction
//! - `shape`: whether records and rows are the topology's
//! - `links_agree`: the first link that doesn't agree with the records
//! - `strangers`: the first row that is of no send
//! - `next`: the next entry of a worker in a record
//! - `receipts`: whether receipts show the next entries
//! - `reached`: how far the receipts of each worker have come
//! - `workers`: the first worker whose receipts are wrong
//! - `told`: whether records tell of the main worker what is planned
//! - `check`: all of this, one after another
//! - `passes`: the passes that records and a plan tell of
//! - `closed`: the finished run, its calls
//! - `listing`: lists of what passes a test, as whoever reads a run makes them
#![tactic(auto)]

mod check;
mod closed;
mod disagree;
mod ends;
mod links_agree;
mod listing;
mod next;
mod parts;
mod passes;
mod planned;
mod reached;
mod receipts;
mod records;
mod shape;
mod strangers;
mod told;
mod workers;

pub use closed::Closed;
pub use disagree::{CheckFault, Disagree};
pub use ends::{from_end, to_end};
pub use links_agree::is_noisy;
pub use listing::push_if;
pub use next::{first_places, next_place};
pub use parts::Parts;
pub use passes::passes_of;
pub use planned::Planned;
pub use records::Records;
