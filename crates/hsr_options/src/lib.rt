//! What a command line may choose: a command, the kind of node that answers lines, the size of duplicate tables (hsr_table_size), and what
//! is written of a run.
//!
//! Its modules, in the order in which to read them:
//! - `role`: the kinds of node that `node` may be
//! - `chosen`: all that is chosen
#![tactic(auto)]

mod chosen;
mod role;

pub use chosen::{Asked, Form, NodeOptions, Options, Scope, Showing, TableChoice};
pub use hsr_text::TimeUnit;
pub use role::NodeRole;
