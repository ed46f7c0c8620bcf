//! What the program does: `node`, `run`, `threads` and `audit`, each over a reader and a writer.
//!
//! Its modules, in the order in which to read them:
//! - `fault`: how a run ended
//! - `engine`: the run of `node` over a reader and a writer
//! - `text`: a text that is read whole
//! - `reading`: scenarios that are read
//! - `naming`: what nodes, sends and ports are called
//! - `notes`: what is said of how a run ended, beyond its agreed lines
//! - `shown`: what is written of a finished run: its transcript or its report, and its tables
//! - `left`: what there is of a run that can't be closed
//! - `scenario`: scenarios that are run, and shown by transcript or report
//! - `threads`: scenarios that run in threads, and are shown by transcript or report
//! - `audit`: transcripts that are read and audited
#![tactic(auto)]

mod audit;
mod engine;
mod fault;
mod left;
mod naming;
mod notes;
mod reading;
mod scenario;
mod shown;
mod text;
mod threads;

pub use audit::{AuditShowing, audit_run};
pub use engine::node_run;
pub use fault::{Fault, Status, TranscriptFault};
pub use hsr_explanation::{Explanation, put_explanation};
pub use hsr_options::{Asked, Form, NodeOptions, Scope, Showing, TableChoice, TimeUnit};
pub use hsr_table_size::TableSize;
pub use notes::Notes;
pub use reading::scenario_of;
pub use scenario::scenario_run;
pub use shown::{ShownRun, asks_budget, deliver, finding_of, shown_by};
pub use text::read_text;
pub use threads::threads_run;
