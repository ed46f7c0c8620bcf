//! What the plays of a scenario are, in any order of their copies, and the conditions under which all of them are certified: no
//! code but the types that both speak of.
#![tactic(auto)]

mod span;

pub use span::{Asked, SendSpan};
