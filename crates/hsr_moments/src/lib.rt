//! The effective moments of a finished run, of each entry: the greatest moment that was given in its record up to it.
//!
//! Its one module, `moments`, has all of it.
#![tactic(auto)]

mod moments;

pub use moments::Moments;
