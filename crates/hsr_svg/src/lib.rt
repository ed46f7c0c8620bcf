//! The elements of a picture, and how they are spelled as SVG: arrows, lines, marks and texts, each with what it shows
//! and where it stands.
//!
//! Its modules, in the order in which to read them:
//! - `elements`: the elements
//! - `style`: how arrows of each look are drawn
//! - `parts`: texts put together from parts
//! - `spelling`: elements as SVG, its call
#![tactic(auto)]

mod elements;
mod parts;
mod spelling;
mod style;

pub use elements::{
    Anchor, Area, Element, Label, Line, Reading, Spot, Way, add_arrow, add_line, add_sample,
    add_shade, add_square, add_text, add_words, begin_labels, end_labels,
};
pub use spelling::put_svg;
pub use style::{looks, words_of};
