//! Why a capture doesn't fit a device.
ghost use Rattle.std.specs.Prelude.{◌≡◌, ◌++◌, OnOk};
ghost use Rattle.hsr_tap_passages.specs.Faults.{fault_words};
ghost use Rattle.hsr_tap_passages.specs.declared.fault.PassageFault.TheVariants.{NoMemory as NoRoom};

use hsr_frame::NoMemory;
use hsr_node::Octets;
use hsr_text::{put, put_count};
use hsr_toml::put_shown;
use std::alloc::AllocFailed;

/// Why a capture doesn't fit a device.
#[derive(Drop)]
pub enum PassageFault {
    /// An interface of this link type is no Ethernet.
    Link(u16),
    /// No interface has this name or number.
    NoSuchName(Octets),
    /// This packet passed an end that is given alone, and its flags tell no direction.
    NoDirection(u32),
    /// Room was refused.
    NoMemory,
}

// `from_gives` says which fault `?` makes, so that no clause takes want of memory for another fault.
impl From<NoMemory> for PassageFault {
    ghost from_gives = { λ _ fault. fault ≡ NoRoom };

    fn from(_refused: NoMemory) -> PassageFault {
        PassageFault::NoMemory
    }
}

impl<T: Drop> From<AllocFailed<T>> for PassageFault {
    ghost from_gives = { λ _ fault. fault ≡ NoRoom };

    fn from(_refused: AllocFailed<T>) -> PassageFault {
        PassageFault::NoMemory
    }
}

/// Puts the words of a fault last, as they stand behind `fault: device `. `NoMemory` where room is refused.
pub fn put_passage_fault(line: &mut Vec<u8>, fault: &PassageFault) -> Result<(), NoMemory>
    ensures { OnOk result (line.new.items ≡ line.old.items ++ fault_words fault.now) }
{
    match fault {
        PassageFault::Link(link) => put_count(line, b"interface link ", u64::from(*link)),
        PassageFault::NoSuchName(name) => {
            put(line, "interface no-such-name ")?;
            put_shown(line, name.as_slice())
        }
        PassageFault::NoDirection(packet) => {
            put_count(line, b"interface no-direction packet ", u64::from(*packet))
        }
        PassageFault::NoMemory => put(line, "memory"),
    }
}
