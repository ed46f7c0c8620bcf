//! Why a file can't be read.
use hsr_frame::NoMemory;
use std::alloc::{AllocError, AllocFailed};

/// What is wrong with a file.
#[derive(Clone, Copy, PartialEq, Eq)]
pub enum CaptureFault {
    /// The file has over 2^28 octets.
    TooLarge,
    /// The file is packed by gzip (RFC 1952).
    Gzip,
    /// The file is in neither format.
    Magic,
    /// The file is shorter than the header of a pcap file.
    Header,
    /// A block has a length that it can't have.
    Block,
    /// A section doesn't say its byte order.
    ByteOrder,
    /// A section is not of version 1.
    Version,
    /// A packet is of an interface that isn't there.
    Interface,
    /// A packet has a length that it can't have.
    Packet,
    /// There are over 64 interfaces.
    Interfaces,
    /// There are over 1048576 packets.
    Packets,
}

/// What is wrong with a file, and where: at the octet, from 0, at which the block or the packet begins, or at 0 for the whole.
#[derive(Clone, Copy, PartialEq, Eq)]
pub struct Refusal {
    pub offset: usize,
    pub fault: CaptureFault,
}

/// Why a file can't be read.
#[derive(Clone, Copy, PartialEq, Eq)]
pub enum ReadFault {
    /// Something is wrong with it.
    Refused(Refusal),
    /// Room was refused.
    NoMemory,
}

impl From<AllocError> for ReadFault {
    ghost use Rattle.std.specs.Prelude.{◌≡◌};
    ghost use Rattle.hsr_capture_reader.specs.declared.fault.ReadFault.TheVariants.{NoMemory as NoRoom};

    ghost from_gives = { λ _ fault. fault ≡ NoRoom };

    fn from(_refused: AllocError) -> ReadFault {
        ReadFault::NoMemory
    }
}

impl<T: Drop> From<AllocFailed<T>> for ReadFault {
    ghost use Rattle.std.specs.Prelude.{◌≡◌};
    ghost use Rattle.hsr_capture_reader.specs.declared.fault.ReadFault.TheVariants.{NoMemory as NoRoom};

    ghost from_gives = { λ _ fault. fault ≡ NoRoom };

    fn from(_refused: AllocFailed<T>) -> ReadFault {
        ReadFault::NoMemory
    }
}

impl From<NoMemory> for ReadFault {
    ghost use Rattle.std.specs.Prelude.{◌≡◌};
    ghost use Rattle.hsr_capture_reader.specs.declared.fault.ReadFault.TheVariants.{NoMemory as NoRoom};

    ghost from_gives = { λ _ fault. fault ≡ NoRoom };

    fn from(_refused: NoMemory) -> ReadFault {
        ReadFault::NoMemory
    }
}

impl From<Refusal> for ReadFault {
    ghost use Rattle.std.specs.Prelude.{◌≡◌};
    ghost use Rattle.hsr_capture_reader.specs.declared.fault.ReadFault.TheVariants.{Refused as IsRefused};

    ghost from_gives = { λ refusal fault. fault ≡ IsRefused refusal };

    fn from(refusal: Refusal) -> ReadFault {
        ReadFault::Refused(refusal)
    }
}
