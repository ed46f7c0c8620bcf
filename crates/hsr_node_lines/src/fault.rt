//! Why there are no lines.
use hsr_frame::NoMemory;
use hsr_node::Octets;
use std::alloc::AllocFailed;

/// Why there are no lines.
#[derive(Drop)]
pub enum LinesFault {
    /// The device is no DANH.
    Role,
    /// An interface of the device has this link type: it is no Ethernet.
    Link(u16),
    /// No interface has this name or number.
    NoSuchName(Octets),
    /// The flags of this packet have to tell its way, and don't.
    NoDirection(u32),
    /// Room was refused.
    NoMemory,
}

impl From<NoMemory> for LinesFault {
    ghost use Rattle.std.specs.Prelude.{◌≡◌};
    ghost use Rattle.hsr_node_lines.specs.declared.fault.LinesFault.TheVariants.{NoMemory as NoRoom};

    ghost from_gives = { λ _ fault. fault ≡ NoRoom };

    fn from(_refused: NoMemory) -> LinesFault {
        LinesFault::NoMemory
    }
}

impl<T: Drop> From<AllocFailed<T>> for LinesFault {
    ghost use Rattle.std.specs.Prelude.{◌≡◌};
    ghost use Rattle.hsr_node_lines.specs.declared.fault.LinesFault.TheVariants.{NoMemory as NoRoom};

    ghost from_gives = { λ _ fault. fault ≡ NoRoom };

    fn from(_refused: AllocFailed<T>) -> LinesFault {
        LinesFault::NoMemory
    }
}
