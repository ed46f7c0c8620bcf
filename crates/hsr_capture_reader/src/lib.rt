//! Captures of Ethernet traffic, as tcpdump, dumpcap and Wireshark write them, as a list of packets.
//!
//! Both file formats are read: pcap (draft-ietf-opsawg-pcap) and pcapng (draft-ietf-opsawg-pcapng). What stands in a file that
//! isn't known is passed over by its length, and a file that breaks off is read up to there.
//!
//! Its modules, in the order in which to read them:
//! - `fault`: why a file can't be read
//! - `numbers`: numbers in either byte order
//! - `clock`: the stamps of an interface, as moments
//! - `fields`: interfaces, what was lost at them, packets
//! - `rooms`: a packet while its file is read
//! - `reading`: what was read so far
//! - `options`: the options of a block
//! - `blocks`: where the blocks of a pcapng file stand
//! - `pcapng`: what its blocks tell
//! - `walk`: a whole pcapng file
//! - `pcap`: the older format
//! - `names`: the names of interfaces, which are kept apart from the packets
//! - `packing`: the octets of the packets, moved to the front of their file
//! - `told`: what a file told, without references into it
//! - `capture`: a whole capture, its call
//! - `law`: what is written is read
#![tactic(auto)]

mod blocks;
mod capture;
mod clock;
mod fault;
mod fields;
mod law;
mod names;
mod numbers;
mod options;
mod packing;
mod pcap;
mod pcapng;
mod reading;
mod rooms;
mod told;
mod walk;

pub use capture::Capture;
pub use clock::Clock;
pub use fault::{CaptureFault, ReadFault, Refusal};
pub use fields::{Interface, Losses, Packet, Way};
pub use law::written_is_read;
pub use numbers::ByteOrder;
pub use rooms::give_back;
