//! The payloads of a plan's streams: GOOSE, sampled values, and those of other types.
//!
//! Its modules, in the order in which to read them:
//! - `frames`: who publishes, and what one of its frames says
//! - `ber`: values with tags and lengths (ITU-T X.690), and numbers in big endian
//! - `publishing`: the names by which frames say who publishes them
//! - `goose`: the payload of GOOSE (IEC 61850-8-1)
//! - `sampled_values`: the payload of sampled values (IEC 61850-9-2)
//! - `kinds`: the payload of each kind, its calls
#![tactic(auto)]

mod ber;
mod frames;
mod goose;
mod kinds;
mod publishing;
mod sampled_values;

pub use frames::{GooseFrame, Publisher, SampledFrame};
pub use kinds::{counted, goose_payload, sampled_payload};
