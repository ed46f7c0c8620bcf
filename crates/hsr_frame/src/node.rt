//! What all kinds of node share.
use crate::fault::FrameFault;
use crate::mac::Mac;

/// Which frames a node forwards round the ring (IEC 62439-3 clause 5.3.2).
#[derive(Clone, Copy, PartialEq, Eq)]
pub enum Mode {
    /// Every frame but its own, one to itself alone, and, of a RedBox, one to a known station.
    H,
    /// No frame.
    N,
    /// Mode H in which a node also forwards, between its ring ports, the unicast that it delivers.
    U,
}

/// A port on the ring.
#[derive(Clone, Copy, PartialEq, Eq)]
pub enum RingPort {
    A,
    B,
}

/// Why an arrival went where it did.
#[derive(Clone, Copy, PartialEq, Eq)]
pub enum Cause {
    /// At least one egress passed it.
    Passed,
    /// Some egress wanted it, and each that did remembers it.
    Duplicate,
    /// Its source is an address of the node itself.
    Returned,
    /// No egress wanted it.
    Foreign,
    /// It goes from one known station to another.
    Local,
    /// It came to a ring port without an HSR tag.
    Untagged,
    /// It came to an interlink or a station with an HSR tag.
    Tagged,
    /// It is no frame.
    Malformed(FrameFault),
}

/// The numbers of a supervision frame: that of its tag, and how many the node sent before, modulo 65536.
#[derive(Clone, Copy, PartialEq, Eq)]
pub struct Life {
    pub seq: u16,
    pub life: u16,
}

/// The node that a supervision frame is about (IEC 62439-3 clause 5.7).
#[derive(Clone, Copy, PartialEq, Eq)]
pub enum About {
    /// The node itself.
    Own,
    /// A station of a RedBox's interlink.
    Proxied(Mac),
}

// With this bound no counter of 64 bits overflows, not even that of copies, which adds up to 3 a step.
/// How many sends, supervisions and arrivals a node accepts (this profile's choice).
pub const STEP_LIMIT: u64 = 1 << 62;
