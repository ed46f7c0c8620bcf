//! How each line of a transcript is spelled and read: nodes, links, entries and rows.
//!
//! Its modules, in the order in which to read them:
//! - `words`: the words of lines, written
//! - `upper`: whether a word's letters are in upper case
//! - `parsing`: the words of lines, read
//! - `lines`: kinds of line, and sections of lines
//! - `places`: the lines of nodes, links and the main worker's order
//! - `records`: the lines of entries
//! - `rows`: the lines of rows
#![tactic(auto)]

mod lines;
mod parsing;
mod places;
mod records;
mod rows;
mod upper;
mod words;

pub use lines::{LineKind, put_head, put_section, read_line};
pub use places::{CountLine, FixedLine, LinkLine, NumberLine, PlaceLine};
pub use records::EntryLine;
pub use rows::RowLine;
pub use words::put_number;
