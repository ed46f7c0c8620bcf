//! A scenario that runs in threads: its nodes and links under locks, a worker for each port, and the closing check; and the plan that
//! its main worker brings about.
//!
//! Its modules, in the order in which to read them:
//! - `gate`: what a worker asks before it judges
//! - `fault`: why there is no run
//! - `plan`: what a scenario's main worker brings about
//! - `wire`: where the ports of nodes lead
//! - `flight`: how many copies are on their way
//! - `cells`: the nodes and links of a scenario, each under a lock
//! - `leaving`: copies that go onto links
//! - `ending`: how a worker ended
//! - `worker`: the worker of a port
//! - `ager`: the ager of a node
//! - `conduct`: the main worker
//! - `role`: what each thread does
//! - `threads`: the threads of a run
//! - `brought`: who brought the entries of a run
//! - `run`: the run, its call
#![tactic(auto)]

mod ager;
mod brought;
mod cells;
mod conduct;
mod ending;
mod fault;
mod flight;
mod gate;
mod leaving;
mod plan;
mod role;
mod run;
mod threads;
mod wire;
mod worker;

pub use fault::RunFault;
pub use gate::{Gate, OpenGate};
pub use plan::{first_fine, plan_of};
pub use run::run_threads;
