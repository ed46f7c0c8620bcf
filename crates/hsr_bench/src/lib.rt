//! The bench as a library: each command over a reader, a writer and files, the arguments that choose one, and all that the program does.
//!
//! `node_run`, `scenario_run`, `threads_run`, `audit_run` and `certify_run` are the commands `node`, `run`, `threads`, `audit` and `certify`.
//! `options` says what the arguments of the program choose. `bench` does what the program `hsr_bench` does, whose `main` is in hsr_bench_main.
//!
//! Its modules, in the order in which to read them:
//! - `performing`: what the arguments choose
//! - `benching`: the whole program
#![tactic(auto)]

mod benching;
mod performing;

pub use benching::bench;
pub use hsr_certifying::{Question, certify_run};
pub use hsr_cli::{OptionFault, options};
pub use hsr_commands::{
    Asked, AuditShowing, Fault, Form, NodeOptions, Scope, Showing, Status, TableChoice, TableSize,
    TimeUnit, TranscriptFault, audit_run, node_run, scenario_run, threads_run,
};
pub use hsr_options::{NodeRole, Options};
