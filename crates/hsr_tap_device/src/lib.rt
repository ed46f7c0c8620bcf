//! A device that is to be judged, as a document of TOML describes it: its role, its addresses, what need not agree, and what each
//! interface of the capture is.
//!
//! Its modules, in the order in which to read them:
//! - `device`: what a document says of a device
//! - `fault`: why a text describes no device
//! - `words`: the words that documents have
//! - `lists`: the lists of a document
//! - `reading`: how a text is read as a device
//! - `telling`: the words of a fault
#![tactic(auto)]

mod device;
mod fault;
mod lists;
mod reading;
mod telling;
mod words;

pub use device::{Device, Down, End, Ignored, Named, Numbers, Owner, Passing, Tap, Times};
pub use fault::{DeviceFault, Key};
pub use reading::read_device;
pub use telling::put_device_fault;
