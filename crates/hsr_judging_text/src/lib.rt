//! The report of a judgement.
//!
//! Its modules, in the order in which to read them:
//! - `words`: the words of a report
//! - `frames`: a frame in words
//! - `deviation`: what deviates, in its order
//! - `lines`: the line of a deviation
//! - `kinds`: its kind
//! - `sums`: deviations of one kind together
//! - `ports`: what came and left by each end
//! - `report`: all lines
//! - `judging`: a device and a capture, judged
#![tactic(auto)]

mod deviation;
mod frames;
mod judging;
mod kinds;
mod lines;
mod ports;
mod report;
mod sums;
mod words;

pub use judging::{JudgeFault, judge, put_judge_fault};
pub use report::Showing;
