//! A finished run as text: written, read line by line, judged, and done again.
//!
//! Its modules, in the order in which to read them:
//! - `fault`: why a run isn't written, and why a text isn't read
//! - `version`: the first line of a text
//! - `writing`: the text of a closed run, written
//! - `sections`: sections of lines, read
//! - `plain`: what a text says that is in form
//! - `form`: the form of a whole text, read section by section
//! - `text_law`: what holds of texts
//! - `reading`: the closed run whose text a text is
//! - `order`: the plan of the main worker, by the order of its entries
//! - `replay`: records that are replayed, entry by entry
//! - `judge`: what a text says that is in form, judged
//! - `earlier_law`: what holds of the texts of earlier releases
#![tactic(auto)]

mod earlier_law;
mod fault;
mod form;
mod judge;
mod order;
mod plain;
mod reading;
mod replay;
mod sections;
mod text_law;
mod version;
mod writing;

pub use earlier_law::earlier_is_read;
pub use fault::{ReadFault, WriteFault};
pub use form::read_plain;
pub use plain::Plain;
pub use reading::read;
pub use text_law::one_text;
pub use writing::write;
