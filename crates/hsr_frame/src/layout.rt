//! Where the parts of a frame stand, how long they are, and the types that tell frames apart. Lengths are in octets.
//!
//! A frame, with offsets in octets; the second row has a VLAN tag (IEEE 802.3 clause 3, IEEE 802.1Q clause 9):
//!
//! ```text
//! 0             6        12     14        16     18
//! | destination | source | type | payload ...
//! | destination | source | 8100 | control | type | payload ...
//! ```
//!
//! Numbers of 16 bits have their high octet first. An HSR tag has the place of the type and 6 octets of the payload.

/// Where the source begins, behind the destination (IEEE 802.3 clause 3).
pub const SOURCE_AT: usize = 6;

/// Where the first type stands, behind the addresses (IEEE 802.3 clause 3).
pub const TYPE_AT: usize = 12;

/// Where a VLAN tag has its control information, behind its type (IEEE 802.1Q clause 9).
pub const CONTROL_AT: usize = 14;

/// What stands up to the type, with it, in a frame with no VLAN tag (IEEE 802.3 clause 3).
pub const HEAD_LEN: usize = 14;

/// What stands up to the last type, with it, in a frame with a VLAN tag (IEEE 802.1Q clause 9).
pub const VLAN_HEAD_LEN: usize = 18;

/// What an HSR tag has behind its type: path and size, number, and the frame's own type (IEC 62439-3 clause 5.6).
pub const TAG_LEN: usize = 6;

/// The longest payload (IEEE 802.3 clause 3).
pub const MAX_PAYLOAD: usize = 1500;

/// The longest rest behind a type: that of an HSR tag, and a payload.
pub const MAX_REST: usize = 1506;

/// The longest frame: a VLAN tag, an HSR tag, and the longest payload.
pub const MAX_FRAME: usize = 1524;

/// The type of a VLAN tag (IEEE 802.1Q clause 9.5).
pub const ETHERTYPE_VLAN: u16 = 0x8100;

/// The type of an HSR tag (IEC 62439-3 clause 5.6).
pub const ETHERTYPE_HSR: u16 = 0x892F;

/// The type of supervision frames (IEC 62439-3 clause 5.7).
pub const ETHERTYPE_SUPERVISION: u16 = 0x88FB;
