//! Why a text is no plan.
ghost use Rattle.std.specs.Prelude.{◌≡◌};
ghost use Rattle.hsr_plan_text.specs.Fault.{key_text};
ghost use Rattle.hsr_plan_text.specs.declared.fault.What.TheVariants.{NoMemory as NoRoom};

use crate::word::Word;
use hsr_frame::NoMemory;
use hsr_toml::TableKey;
use std::alloc::AllocFailed;

/// A key of a plan's tables.
#[derive(Clone, Copy, PartialEq, Eq)]
pub enum Key {
    Title,
    Ring,
    Rings,
    /// Written `redbox`.
    RedBox,
    Address,
    Mode,
    Capacity,
    /// Written `life_ms`.
    Life,
    /// Written `until_us`.
    Until,
    Epoch,
    Moves,
    /// Written `hop_us`.
    Hop,
    /// Written `rate_mbps`.
    Rate,
    /// Written `residence_us`.
    Residence,
    Switching,
    Stream,
    Event,
    From,
    For,
    To,
    /// Written `type`.
    Kind,
    Size,
    Vlan,
    Priority,
    Appid,
    /// Written `control_block`.
    ControlBlock,
    Id,
    /// Written `data_set`.
    DataSet,
    /// Written `start_us`.
    Start,
    /// Written `every_us`.
    Every,
    Count,
    Grow,
    /// Written `most_us`.
    Most,
    /// Written `smp_rate`.
    SampleRate,
    Asdus,
    /// Written `at_us`.
    At,
    Cut,
    Mend,
    Off,
    On,
}

impl TableKey for Key {
    ghost use Rattle.hsr_plan_text.specs.Fault.{faults};

    type Fault = What;

    ghost faults = { faults };

    fn text(self) -> &'static str {
        self.text()
    }

    fn missing(self) -> What {
        What::Missing(self)
    }

    fn wrong_kind(self) -> What {
        What::WrongKind(self)
    }

    fn bad_value(self) -> What {
        What::BadValue(self)
    }

    fn no_memory(self) -> What {
        What::NoMemory
    }
}

impl Key {
    /// The key as it is written.
    pub fn text(self) -> &'static str
        ensures { result.now ≡ key_text self }
    {
        match self {
            Key::Title => "title",
            Key::Ring => "ring",
            Key::Rings => "rings",
            Key::RedBox => "redbox",
            Key::Address => "address",
            Key::Mode => "mode",
            Key::Capacity => "capacity",
            Key::Life => "life_ms",
            Key::Until => "until_us",
            Key::Epoch => "epoch",
            Key::Moves => "moves",
            Key::Hop => "hop_us",
            Key::Rate => "rate_mbps",
            Key::Residence => "residence_us",
            Key::Switching => "switching",
            Key::Stream => "stream",
            Key::Event => "event",
            Key::From => "from",
            Key::For => "for",
            Key::To => "to",
            Key::Kind => "type",
            Key::Size => "size",
            Key::Vlan => "vlan",
            Key::Priority => "priority",
            Key::Appid => "appid",
            Key::ControlBlock => "control_block",
            Key::Id => "id",
            Key::DataSet => "data_set",
            Key::Start => "start_us",
            Key::Every => "every_us",
            Key::Count => "count",
            Key::Grow => "grow",
            Key::Most => "most_us",
            Key::SampleRate => "smp_rate",
            Key::Asdus => "asdus",
            Key::At => "at_us",
            Key::Cut => "cut",
            Key::Mend => "mend",
            Key::Off => "off",
            Key::On => "on",
        }
    }
}

/// Where a fault is.
#[derive(Clone, Copy, PartialEq, Eq)]
pub enum Spot {
    /// In the plan itself.
    Top,
    /// In a stream, counted from 0.
    Stream(usize),
    /// In an event, counted from 0.
    Event(usize),
}

/// Why what a plan says means nothing.
#[derive(Drop)]
pub enum Refusal {
    /// A name stands twice where it may stand once, or a node's in more than two rings.
    NameTwice(Word),
    /// Nobody has the name, or nobody who can do what is asked of it.
    NoSuchName(Word),
    /// A node has the name, and no address of its own.
    NoAddress(Word),
    /// A station behind a RedBox has the name, where a node is asked for.
    OfStation(Word),
    /// The address that is given to the name is another's default.
    AddressTaken(Word),
    /// Nobody has the address that is the value of a key.
    Nobody(Key),
    /// There is no link between the ends that are the value of a key.
    NoLink(Key),
    /// A node sends to itself.
    ToItself(Word),
    /// The frames of the stream aren't due at who has the name.
    NotDue(Word),
    /// Nothing says where it ends.
    Endless(Key),
    /// A moment of a key is behind the end, or the moment of a start is the end itself.
    TooLate(Key),
    /// The size is below the shortest payload that there is, which has this number of octets.
    TooSmall(usize),
    /// The shortest payload that there is has this number of octets, more than a frame takes.
    TooLong(usize),
    /// The APPID of a stream's sender is another's, or there is none left for it.
    AppidTaken,
    /// An event changes nothing, or a key of the plan.
    Idle(Key),
    /// The key stands beside another in place of which it may stand.
    Together(Key),
    /// There is more of what a key tells than is allowed.
    TooMany(Key),
    /// The nodes and links do not form a valid topology.
    Topology,
}

/// What a fault is. `Unknown` is tried before all keys of its table; at one key the others are tried in this order.
#[derive(Drop)]
pub enum What {
    /// The text has over 16 MiB, or is no TOML.
    Text,
    /// A key that has to be there isn't.
    Missing(Key),
    /// This key is there, and the table doesn't have it.
    Unknown(Word),
    /// The value of a key has another type.
    WrongKind(Key),
    /// A word in the value of a key, where a name has to be, is none.
    BadName(Key, Word),
    /// The value of a key isn't one of those that it may have.
    BadValue(Key),
    /// The document is read, and means nothing.
    Refused(Refusal),
    /// A growth was refused.
    NoMemory,
}

/// The first fault of a text.
#[derive(Drop)]
pub struct PlanFault {
    pub spot: Spot,
    pub what: What,
}

// `from_gives` says which fault `?` makes, so that no clause takes a failed allocation for another fault.
impl From<NoMemory> for What {
    ghost from_gives = { λ _ what. what ≡ NoRoom };

    fn from(_refused: NoMemory) -> What {
        What::NoMemory
    }
}

impl<T: Drop> From<AllocFailed<T>> for What {
    ghost from_gives = { λ _ what. what ≡ NoRoom };

    fn from(_refused: AllocFailed<T>) -> What {
        What::NoMemory
    }
}
