//! Whether a device does what the reference does: which observed copy is which expected one, and what becomes of each.
//!
//! Its modules, in the order in which to read them:
//! - `agreement`: whether an observed copy says what an expected one does
//! - `alikeness`: whether it is that frame, altered
//! - `window`: whether it came in time
//! - `matching`: which observed copy is which expected one
//! - `numbers`: the numbers that the device gave
//! - `fates`: what becomes of each copy
//! - `difference`: in which fields two copies differ
//! - `reason`: what the reference said of the frame of a copy that nothing caused
//! - `judgement`: all of it
#![tactic(auto)]

mod agreement;
mod alikeness;
mod difference;
mod fates;
mod judgement;
mod matching;
mod numbers;
mod reason;
mod window;

pub use difference::{Difference, differences};
pub use fates::{ExpectedFate, ObservedFate};
pub use judgement::{Judgement, judgement_of};
pub use matching::{Got, Word};
pub use reason::{Reason, is_twice, reason_of};
