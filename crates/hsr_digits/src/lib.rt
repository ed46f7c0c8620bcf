//! Octets in hexadecimal digits: read from digits of either case, and written in upper case.
//!
//! Its modules, in the order in which to read them:
//! - `pairs`: octet by octet, as short texts are read and written
//! - `blocks`: 16 octets at a time, as long ones are
//! - `texts`: all the octets of a text, by whichever is the sooner
#![tactic(auto)]

mod blocks;
mod pairs;
mod texts;

pub use texts::{read_hex, write_hex};
