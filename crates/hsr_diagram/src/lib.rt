//! What the diagram of a finished run shows: rings and rows of nodes side by side, an arrow for each copy that is
//! wanted, and the sends.
//!
//! Its modules, in the order in which to read them:
//! - `panel`: lanes and panels
//! - `ways`: where a ring or a row of nodes begins, and where it goes on
//! - `paneling`: the panels of a topology, its call
//! - `span`: moments from one to another
//! - `wanting`: which rows are wanted
//! - `arrow`: an arrow, and how it looks
//! - `tracing`: the arrows of rows
//! - `sending`: the sends that are listed beside
//! - `picturing`: the whole, its call
#![tactic(auto)]

mod arrow;
mod panel;
mod paneling;
mod picturing;
mod sending;
mod span;
mod tracing;
mod wanting;
mod ways;

pub use arrow::{Arrow, Look};
pub use panel::{Lane, Panel};
pub use paneling::panels;
pub use picturing::{COPY_LIMIT, Picture, PictureFault, picture_run};
pub use sending::{Sent, is_among};
pub use span::Span;
