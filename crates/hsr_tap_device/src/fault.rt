//! Why a text describes no device.
ghost use Rattle.std.specs.Prelude.{◌≡◌};
ghost use Rattle.hsr_tap_device.specs.Fault.{key_text};
ghost use Rattle.hsr_tap_device.specs.declared.fault.DeviceFault.TheVariants.{NoMemory as NoRoom};

use hsr_frame::NoMemory;
use hsr_node::Octets;
use hsr_toml::TableKey;
use std::alloc::AllocFailed;

/// A key of a document that describes a device.
#[derive(Clone, Copy, PartialEq, Eq)]
pub enum Key {
    Role,
    /// Written `mac`.
    Address,
    Mode,
    Table,
    /// Written `within_us`.
    Within,
    /// Written `early_us`.
    Early,
    /// Written `from_us`.
    From,
    /// Written `until_us`.
    Until,
    /// Written `warm_us`.
    Warm,
    Start,
    /// Written `life_start`.
    LifeStart,
    Host,
    Stations,
    Whole,
    Ignore,
    Down,
    Interface,
    /// Of a port that is down.
    Port,
}

impl TableKey for Key {
    ghost use Rattle.hsr_tap_device.specs.Fault.{faults};

    type Fault = DeviceFault;

    ghost faults = { faults };

    fn text(self) -> &'static str {
        self.text()
    }

    fn missing(self) -> DeviceFault {
        DeviceFault::Missing(self)
    }

    fn wrong_kind(self) -> DeviceFault {
        DeviceFault::WrongKind(self)
    }

    fn bad_value(self) -> DeviceFault {
        DeviceFault::BadValue(self)
    }

    fn no_memory(self) -> DeviceFault {
        DeviceFault::NoMemory
    }
}

impl Key {
    /// The key as it is written.
    pub fn text(self) -> &'static str
        ensures { result.now ≡ key_text self }
    {
        match self {
            Key::Role => "role",
            Key::Address => "mac",
            Key::Mode => "mode",
            Key::Table => "table",
            Key::Within => "within_us",
            Key::Early => "early_us",
            Key::From => "from_us",
            Key::Until => "until_us",
            Key::Warm => "warm_us",
            Key::Start => "start",
            Key::LifeStart => "life_start",
            Key::Host => "host",
            Key::Stations => "stations",
            Key::Whole => "whole",
            Key::Ignore => "ignore",
            Key::Down => "down",
            Key::Interface => "interface",
            Key::Port => "port",
        }
    }
}

/// Why a text describes no device. Keys that documents don't have, and kinds, are tried before all values; at one key the others are
/// tried in this order.
#[derive(Drop)]
pub enum DeviceFault {
    /// The text has over 16 MiB, or is no TOML.
    Text,
    /// This key is there, and documents don't have it.
    Unknown(Octets),
    /// The value of a key has another type.
    WrongKind(Key),
    /// A key that has to be there isn't.
    Missing(Key),
    /// The key is there, and the role has none.
    Unwanted(Key),
    /// The value of a key isn't one of those that it may have.
    BadValue(Key),
    /// A growth was refused.
    NoMemory,
}

// `from_gives` says which fault `?` makes, so that no clause takes want of memory for another fault.
impl From<NoMemory> for DeviceFault {
    ghost from_gives = { λ _ fault. fault ≡ NoRoom };

    fn from(_refused: NoMemory) -> DeviceFault {
        DeviceFault::NoMemory
    }
}

impl<T: Drop> From<AllocFailed<T>> for DeviceFault {
    ghost from_gives = { λ _ fault. fault ≡ NoRoom };

    fn from(_refused: AllocFailed<T>) -> DeviceFault {
        DeviceFault::NoMemory
    }
}
