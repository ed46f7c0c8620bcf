//! Why a text is no address, octets are no frame, and a send is refused.
ghost use Rattle.std.specs.Prelude.{◌≡◌};
ghost use Rattle.hsr_frame.specs.Fault.{frame_fault_code, send_fault_code};

use std::alloc::{AllocError, AllocFailed};
use thiserror::Error;

/// Why a text is no address.
#[derive(Clone, Copy, Debug, PartialEq, Eq, Error)]
pub enum MacFault {
    #[error("the text of an address has 17 octets")]
    Length,
    #[error("a digit of an address is not hexadecimal")]
    Digit,
    #[error("the digits of an address are parted by hyphens")]
    Separator,
}

/// Why octets are no frame (IEC 62439-3 clause 5.6, IEEE 802.1Q clause 9).
#[derive(Clone, Copy, Debug, PartialEq, Eq, Error)]
pub enum FrameFault {
    #[error("the frame is too short")]
    Short,
    #[error("the frame is too long")]
    Long,
    #[error("the source is a group address")]
    GroupSource,
    #[error("the frame has two VLAN tags")]
    DoubleVlan,
    #[error("the HSR tag is too short")]
    ShortTag,
    #[error("the frame has two HSR tags")]
    NestedTag,
}

impl FrameFault {
    /// Its number in texts, 1 to 6.
    pub fn code(&self) -> u8
        ensures { result ≡ frame_fault_code self.now }
    {
        match self {
            FrameFault::Short => 1,
            FrameFault::Long => 2,
            FrameFault::GroupSource => 3,
            FrameFault::DoubleVlan => 4,
            FrameFault::ShortTag => 5,
            FrameFault::NestedTag => 6,
        }
    }
}

/// Why a node refuses to send, in the order in which the reasons are tried.
#[derive(Clone, Copy, PartialEq, Eq)]
pub enum SendFault {
    /// The destination is the sender.
    SelfAddressed,
    /// The type is that of a VLAN tag or of an HSR tag.
    ReservedType,
    /// The node has accepted as many steps as it may.
    Spent,
    /// The payload has more octets than `MAX_PAYLOAD`.
    TooLong,
}

impl SendFault {
    /// Its number in texts, 1 to 4.
    pub fn code(&self) -> u8
        ensures { result ≡ send_fault_code self.now }
    {
        match self {
            SendFault::SelfAddressed => 1,
            SendFault::ReservedType => 2,
            SendFault::Spent => 3,
            SendFault::TooLong => 4,
        }
    }
}

/// A node has accepted as many sends, supervisions and arrivals as it may: 2^62.
#[derive(Clone, Copy, PartialEq, Eq)]
pub struct Spent;

/// A growth was refused: the allocator gave no memory. What stands then is told by each call that gives this.
#[derive(Clone, Copy, PartialEq, Eq)]
pub struct NoMemory;

// Two errors of the allocator are one fault here, so that `?` hands either on.
impl From<AllocError> for NoMemory {
    fn from(_refused: AllocError) -> NoMemory {
        NoMemory
    }
}

// A value that found no room is let go: who goes on with it takes it out of the error before.
impl<T: Drop> From<AllocFailed<T>> for NoMemory {
    fn from(_refused: AllocFailed<T>) -> NoMemory {
        NoMemory
    }
}
