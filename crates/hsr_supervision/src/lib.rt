//! Supervision payloads: what they say, and their octets (IEC 62439-3 clause 5.7).
//!
//! Its modules, in the order in which to read them:
//! - `payload`: what a payload says, how it is read and written
#![tactic(auto)]

mod payload;

pub use payload::{MIN_PAYLOAD, SupFault, SupKind, Supervision};
