//! The page of a plan, for its acceptance: one file of HTML that stands alone and prints on A4.
//!
//! Its modules, in the order in which to read them:
//! - `facts`: what a page says of a plan
//! - `pieces`: rows, cells and lists of names
//! - `head`: the title, the verdict, and the numbers that come first
//! - `network`: the network as it is wired, and its devices
//! - `streams`: streams, and what came of them
//! - `load`: what each direction of each link carries
//! - `latency`: how long sends took to each receiver
//! - `sweep`: each link and each node off, one by one
//! - `ends`: tables, events, doubts, and what the paper names
//! - `data`: the numbers as JSON
//! - `page`: the page of a plan, its call
#![tactic(auto)]

mod data;
mod ends;
mod facts;
mod head;
mod latency;
mod load;
mod network;
mod page;
mod pieces;
mod streams;
mod sweep;

pub use facts::{CaseRow, Counts, EventRow, Facts, OutageRow, StreamRow, Tally, Verdict};
pub use page::plan_page;
