//! The lines of `node`: what each asks for, and the lines that answer it.
//!
//! Its modules, in the order in which to read them:
//! - `request`: what an input line of `node` asks for
//! - `arrived`: what goes up, where it stands
//! - `reply`: the lines that answer an event, and the line of counters
//! - `answer`: what a node answers to a line
#![tactic(auto)]

mod answer;
mod arrived;
mod reply;
mod request;

pub use answer::answer_line;
pub use hsr_text::put_count;
pub use reply::put_counters;
pub use request::{Request, Setting, read_request};
