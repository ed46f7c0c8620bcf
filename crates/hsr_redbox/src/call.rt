//! What a RedBox is asked, and what it answers.
use hsr_frame::Cause;

/// A port of a RedBox: two on the ring, and the interlink.
#[derive(Clone, Copy, PartialEq, Eq)]
pub enum BoxPort {
    A,
    B,
    I,
}

/// By which ports a frame of the RedBox's own left, and its number, if it got one: with the path 0 on A and 1 on
/// B, and with no tag on the interlink.
#[derive(Clone, Copy, PartialEq, Eq)]
pub struct BoxSent {
    pub seq: Option<u16>,
    pub a: bool,
    pub b: bool,
    pub interlink: bool,
}

/// Where an arrival passed, and why; `seq` is the number that the RedBox gave it, if it did.
#[derive(Clone, Copy, PartialEq, Eq)]
pub struct BoxVerdict {
    pub up: bool,
    pub a: bool,
    pub b: bool,
    pub interlink: bool,
    pub seq: Option<u16>,
    pub cause: Cause,
}

/// Why a supervision is refused, in the order in which the reasons are tried.
#[derive(Clone, Copy, PartialEq, Eq)]
pub enum LifeFault {
    /// It is about an address that isn't known on the interlink.
    NotProxied,
    /// The node has accepted as many steps as it may.
    Spent,
}
