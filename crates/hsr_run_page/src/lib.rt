//! The page of a finished run: its network, its sends, and its copies as they moved, in one file of HTML that stands alone.
//!
//! Its modules, in the order in which to read them:
//! - `entries`: the entries of a run in the order of time
//! - `rows`: the rows of the page's data
//! - `data`: the data of the page, as JSON
//! - `facts`: the head of the page
//! - `pieces`: what is the same in each page
//! - `listing`: the list of sends
//! - `strip`: the run at a glance
//! - `reporting`: the report
//! - `body`: all that a reader sees
//! - `page`: the whole, its call
#![tactic(auto)]

mod body;
mod data;
mod entries;
mod facts;
mod listing;
mod page;
mod pieces;
mod reporting;
mod rows;
mod strip;

pub use page::{COPY_LIMIT, Shown, page_of_run};
