//! Why a text is no scenario.
ghost use Rattle.std.specs.Prelude.{◌≡◌, Some};
ghost use Rattle.hsr_scenario.specs.Fault.{key_text};
ghost use Rattle.hsr_scenario.specs.declared.fault.What.TheVariants.{NoMemory as NoRoom};

use hsr_frame::NoMemory;
use hsr_toml::TableKey;
use hsr_topology::TopologyFault;
use std::alloc::AllocFailed;
use std::error::Error;
use std::fmt;

/// A key of a scenario's tables.
#[derive(Clone, Copy, Debug, PartialEq, Eq)]
pub enum Key {
    Capacity,
    /// Written `unit`.
    TimeUnit,
    Node,
    Link,
    Step,
    Name,
    Role,
    Mac,
    Mode,
    Macs,
    Ends,
    Do,
    At,
    To,
    /// Written `type`.
    Kind,
    Payload,
    Vlan,
    From,
    About,
    Port,
    Dir,
    Octets,
    Stream,
}

impl TableKey for Key {
    ghost use Rattle.hsr_scenario.specs.Fault.{faults};

    type Fault = What;

    ghost faults = { faults };

    fn text(self) -> &'static str {
        self.text()
    }

    fn missing(self) -> What {
        What::Missing(self)
    }

    fn wrong_kind(self) -> What {
        What::WrongKind(self)
    }

    fn bad_value(self) -> What {
        What::BadValue(self)
    }

    fn no_memory(self) -> What {
        What::NoMemory
    }
}

impl Key {
    /// The key as it is written.
    pub fn text(self) -> &'static str
        ensures { result.now ≡ key_text self }
    {
        match self {
            Key::Capacity => "capacity",
            Key::TimeUnit => "unit",
            Key::Node => "node",
            Key::Link => "link",
            Key::Step => "step",
            Key::Name => "name",
            Key::Role => "role",
            Key::Mac => "mac",
            Key::Mode => "mode",
            Key::Macs => "macs",
            Key::Ends => "ends",
            Key::Do => "do",
            Key::At => "at",
            Key::To => "to",
            Key::Kind => "type",
            Key::Payload => "payload",
            Key::Vlan => "vlan",
            Key::From => "from",
            Key::About => "about",
            Key::Port => "port",
            Key::Dir => "dir",
            Key::Octets => "octets",
            Key::Stream => "stream",
        }
    }
}

/// Where a fault is.
#[derive(Clone, Copy, Debug, PartialEq, Eq)]
pub enum Spot {
    /// In the document itself.
    Top,
    /// In a node, counted from 0.
    Node(usize),
    /// In a link, counted from 0.
    Link(usize),
    /// In a step, counted from 0.
    Step(usize),
}

/// What a fault is. `Unknown` is tried before all keys of its table but `role` and `do`; at one key the others are tried in this
/// order.
#[derive(Clone, Copy, Debug, PartialEq, Eq)]
pub enum What {
    /// The text has over 16 MiB, or is no TOML.
    Text,
    /// A key that has to be there isn't.
    Missing(Key),
    /// A key is there that the table doesn't have.
    Unknown,
    /// The value of a key has another type.
    WrongKind(Key),
    /// The value of a key isn't one of those that it may have.
    BadValue(Key),
    /// An earlier node has the name.
    NameTwice,
    /// No node has the name, or its role hasn't the port, or there is no link of that number.
    NoSuchName,
    /// The nodes and links do not form a valid topology.
    Topology(TopologyFault),
    /// A growth was refused.
    NoMemory,
}

/// The first fault of a text.
#[derive(Clone, Copy, Debug, PartialEq, Eq)]
pub struct ScenarioFault {
    pub spot: Spot,
    pub what: What,
}

impl fmt::Display for Key {
    ghost output = { λ k. Some (key_text k) };

    fn fmt<W: fmt::Write>(&self, f: &mut fmt::Formatter<W>) -> fmt::Result {
        let text = self.text();
        write!(f, "{text}")
    }
}

impl fmt::Display for Spot {
    ghost use Rattle.hsr_scenario.specs.Fault.{spot_text};

    ghost output = { λ s. Some (spot_text s) };

    fn fmt<W: fmt::Write>(&self, f: &mut fmt::Formatter<W>) -> fmt::Result {
        match self {
            Spot::Top => write!(f, "top"),
            Spot::Node(i) => write!(f, "node {i}"),
            Spot::Link(i) => write!(f, "link {i}"),
            Spot::Step(i) => write!(f, "step {i}"),
        }
    }
}

impl fmt::Display for What {
    ghost use Rattle.hsr_scenario.specs.Fault.{what_text};

    ghost output = { λ w. Some (what_text w) };

    fn fmt<W: fmt::Write>(&self, f: &mut fmt::Formatter<W>) -> fmt::Result {
        match self {
            What::Text => write!(f, "text"),
            What::Missing(key) => write!(f, "missing {key}"),
            What::Unknown => write!(f, "unknown"),
            What::WrongKind(key) => write!(f, "wrong-kind {key}"),
            What::BadValue(key) => write!(f, "bad-value {key}"),
            What::NameTwice => write!(f, "name-twice"),
            What::NoSuchName => write!(f, "no-such-name"),
            What::Topology(fault) => {
                let code = fault.code();
                write!(f, "topology-{code}")
            }
            What::NoMemory => write!(f, "no-memory"),
        }
    }
}

// `from_gives` says which fault `?` makes, so that no clause takes a failed allocation for another fault.
impl From<NoMemory> for What {
    ghost from_gives = { λ _ what. what ≡ NoRoom };

    fn from(_refused: NoMemory) -> What {
        What::NoMemory
    }
}

impl<T: Drop> From<AllocFailed<T>> for What {
    ghost from_gives = { λ _ what. what ≡ NoRoom };

    fn from(_refused: AllocFailed<T>) -> What {
        What::NoMemory
    }
}

impl fmt::Display for ScenarioFault {
    ghost use Rattle.hsr_scenario.specs.Fault.{fault_text};

    ghost output = { λ e. Some (fault_text e) };

    fn fmt<W: fmt::Write>(&self, f: &mut fmt::Formatter<W>) -> fmt::Result {
        let spot = self.spot;
        let what = self.what;
        write!(f, "{spot} {what}")
    }
}

impl Error for ScenarioFault {}
