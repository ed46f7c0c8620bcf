//! Captures in the file format pcapng (draft-ietf-opsawg-pcapng): the blocks of one section, little endian.
//!
//! Its modules, in the order in which to read them:
//! - `fault`: why a block can't be written
//! - `octets`: numbers, padding and options
//! - `blocks`: the section header, an interface, a packet
#![tactic(auto)]

mod blocks;
mod fault;
mod octets;

pub use blocks::{put_interface, put_packet, put_section_header};
pub use fault::BlockFault;
