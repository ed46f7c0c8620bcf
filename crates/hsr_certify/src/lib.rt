//! A verdict on a scenario, whatever the order in which its copies move: certified, or the first doubt.
//!
//! Its modules, in the order in which to read them:
//! - `doubt`: why a scenario can't be certified
//! - `spans`: the steps of the span of a send
//! - `fine`: whether something is sent, steps that move copies themselves, and spans that don't end
//! - `rising`: by how much the clock rises
//! - `counting`: how many spans meet, are open, and are numbered by one node
//! - `accepting`: which steps some play refuses
//! - `covering`: which sends a network promises to bring
//! - `serving`: which nodes a send comes to whatever is down in its span
//! - `fit`: what the types of the code tell of nodes and steps
//! - `law`: what `run` plays is certified by its audit
//! - `certifying`: the verdict
#![tactic(auto)]

mod accepting;
mod certifying;
mod counting;
mod covering;
mod doubt;
mod fine;
mod fit;
mod law;
mod rising;
mod serving;
mod spans;

pub use certifying::{Certified, certify};
pub use doubt::{CertifyFault, Doubt};
pub use law::run_certifies;
