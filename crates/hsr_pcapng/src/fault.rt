//! Why a block can't be written.
use hsr_frame::NoMemory;
use std::alloc::AllocError;

/// Why a block can't be written.
#[derive(Clone, Copy, PartialEq, Eq)]
pub enum BlockFault {
    /// The value of an option has over 65535 octets, or a block 2^32 octets or more.
    TooLong,
    /// Allocation failed.
    NoMemory,
}

// `from_gives` says which fault `?` makes, so that no clause takes a failed allocation for `TooLong`.
impl From<AllocError> for BlockFault {
    ghost use Rattle.std.specs.Prelude.{◌≡◌};
    ghost use Rattle.hsr_pcapng.specs.declared.fault.BlockFault.TheVariants.{NoMemory as NoRoom};

    ghost from_gives = { λ _ fault. fault ≡ NoRoom };

    fn from(_refused: AllocError) -> BlockFault {
        BlockFault::NoMemory
    }
}

impl From<NoMemory> for BlockFault {
    ghost use Rattle.std.specs.Prelude.{◌≡◌};
    ghost use Rattle.hsr_pcapng.specs.declared.fault.BlockFault.TheVariants.{NoMemory as NoRoom};

    ghost from_gives = { λ _ fault. fault ≡ NoRoom };

    fn from(_refused: NoMemory) -> BlockFault {
        BlockFault::NoMemory
    }
}
