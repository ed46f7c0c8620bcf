//! How many entries a duplicate table holds, by the word that chooses it, and calls of functions whose types have it.
//!
//! Its modules, in the order in which to read them:
//! - `size`: the sizes, their words, and their numbers of entries
//! - `macros`: a call of a function at each size, and the words of all sizes
#![tactic(auto)]

mod macros;
mod size;

pub use size::TableSize;
