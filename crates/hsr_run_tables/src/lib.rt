//! The tables of a finished run, as a spreadsheet reads them: its nodes, links and sends, what links carried, how long sends took, and
//! what its audit found; the facts of its report, one a cell.
//!
//! Its modules, in the order in which to read them:
//! - `row`: a row of a table while it is formed
//! - `cells`: cells of nodes, entries, ports and addresses, and cells of lists
//! - `table`: the text of a table
//! - `nodes`, `links`, `sends`, `load`, `latency`, `doubt`: a table each
//! - `tables`: the tables of a run, its call
#![tactic(auto)]

mod cells;
mod doubt;
mod latency;
mod links;
mod load;
mod nodes;
mod row;
mod sends;
mod table;
mod tables;

pub use tables::{RunTables, run_tables};
