//! The command lines of hsr_bench and hsr_plan: what their arguments choose, and their help, by clap.
//!
//! Its modules, in the order in which to read them:
//! - `fault`: why arguments are refused, and how that is told
//! - `flags`: flags and options of a command, and what they are set to
//! - `within`: the bound of `--within`
//! - `bench_help`: the help of hsr_bench
//! - `playing`: the options of a command that plays something, and what they choose to be shown of the run
//! - `bench_words`: reads the arguments of hsr_bench
//! - `task`: what arguments of hsr_plan choose
//! - `plan_help`: the help of hsr_plan
//! - `sweeping`: the options of `sweep`, and what they choose
//! - `reporting`: the options of `report`, and what they choose
//! - `plan_words`: reads the arguments of hsr_plan
#![tactic(auto)]

mod bench_help;
mod bench_words;
mod fault;
mod flags;
mod plan_help;
mod plan_words;
mod playing;
mod reporting;
mod sweeping;
mod task;
mod within;

pub use bench_words::options;
pub use fault::{OptionFault, turn_away, usage};
pub use plan_words::task_by;
pub use task::{Faults, Part, ReportWords, SweepWords, Task};
