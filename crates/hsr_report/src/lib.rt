//! The report of a finished run: its nodes with their counters, its links with what became of their copies, and what
//! its audit found; and, where that is asked for, how much links carried, how long sends took, who got what, how many entries
//! were needed, and what was spent of the tables. Of a network it tells which ports on rings have no link, and which sends no node is for.
//! A naming says what its lines call nodes and entries.
//!
//! Its modules, in the order in which to read them:
//! - `finding`: what the audit found
//! - `needs`: how many entries were needed, in words
//! - `spending`: what was spent of the tables
//! - `load_lines`, `latency_lines`, `delivery_lines`: how much links carried, how long sends took, and who got what
//! - `parts`: the parts that are asked for
//! - `network`: what the report of a network tells more
//! - `reporting`: the whole report
#![tactic(auto)]

mod delivery_lines;
mod finding;
mod latency_lines;
mod load_lines;
mod needs;
mod network;
mod parts;
mod reporting;
mod spending;

pub use delivery_lines::put_loss;
pub use finding::{Finding, found, put_finding};
pub use reporting::{put_head, put_link, put_node, report};
pub use spending::{Spending, put_spent, spending_of};
