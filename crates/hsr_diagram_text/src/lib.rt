//! The words of a diagram: its title, sends and names of nodes, moments, labels of arrows, and what is told of sends that
//! aren't complete.
//!
//! Its modules, in the order in which to read them:
//! - `sends`: sends, and names of nodes
//! - `moments`: moments in the unit that reads best
//! - `labels`: nodes, ports, links and their changes, and moments
//! - `title`: the title
//! - `sent`: sends as they are listed
//! - `told`: sends that aren't complete
//! - `wrapping`: long texts, line by line
#![tactic(auto)]

mod labels;
mod moments;
mod sends;
mod sent;
mod title;
mod told;
mod wrapping;

pub use labels::{
    change_word, done_words, kind_word, letter_at, link_words, moment_words, name_words,
    switch_word,
};
pub use sends::send_words;
pub use sent::sent_words;
pub use title::title_words;
pub use told::{incomplete_words, more_words};
pub use wrapping::wrapped;
