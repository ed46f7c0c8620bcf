//! The page of a plan for its acceptance: what its run, its sweeps and its verdict come to, gathered and put into one file.
//!
//! Its modules, in the order in which to read them:
//! - `asked`: what is asked of a page
//! - `reasons`: what a verdict in any order means, in a sentence
//! - `words`: streams, events and moves of a plan in words
//! - `sent`: how many sends each stream had
//! - `missing`: which nodes need a stream and missed a send of it
//! - `streams`: what came of each stream
//! - `outages`: what each link and each node that is off cuts off
//! - `cases`: what came of each run of a sweep
//! - `own`: what the plan's own run comes to, and the verdict in any order
//! - `gathered`: its sweeps, and what faults cut off
//! - `paper`: the page of what was gathered
//! - `reporting`: the page over a reader and two writers, its call
#![tactic(auto)]

mod asked;
mod cases;
mod gathered;
mod missing;
mod outages;
mod own;
mod paper;
mod reasons;
mod reporting;
mod sent;
mod streams;
mod words;

pub use asked::Asked;
pub use reporting::report_run;
