//! Sets of numbers below 512, as bits: a number is put, dropped or looked up, and the lowest is found, by a look at eight
//! words at most.
#![tactic(auto)]

mod numbers;

pub use numbers::Numbers;
