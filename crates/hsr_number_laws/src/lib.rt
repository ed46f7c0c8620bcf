//! Why no number is mistaken where each node numbers few frames.
#![tactic(auto)]

mod law;

pub use law::counted_tells;
