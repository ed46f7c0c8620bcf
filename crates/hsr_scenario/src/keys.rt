//! The keys that each table of a scenario may have.
use crate::fault::Key;

/// The keys of the whole text.
pub const TOP_KEYS: [Key; 5] = [
    Key::Capacity,
    Key::TimeUnit,
    Key::Node,
    Key::Link,
    Key::Step,
];

// ---- nodes

/// The keys of a node with an address, on a ring: a DANH or a RedBox.
pub const RING_KEYS: [Key; 4] = [Key::Name, Key::Role, Key::Mac, Key::Mode];

/// The keys of a QuadBox.
pub const QUADBOX_KEYS: [Key; 2] = [Key::Name, Key::Role];

/// The keys of a Station.
pub const STATION_KEYS: [Key; 3] = [Key::Name, Key::Role, Key::Macs];

// ---- links

/// The keys of a link.
pub const LINK_KEYS: [Key; 1] = [Key::Ends];

// ---- steps

/// The keys of a clock.
pub const CLOCK_KEYS: [Key; 2] = [Key::Do, Key::At];

/// The keys of a send.
pub const SEND_KEYS: [Key; 8] = [
    Key::Do,
    Key::Node,
    Key::To,
    Key::Kind,
    Key::Payload,
    Key::Vlan,
    Key::From,
    Key::Stream,
];

/// The keys of a life.
pub const LIFE_KEYS: [Key; 4] = [Key::Do, Key::Node, Key::About, Key::Stream];

/// The keys of an age.
pub const AGE_KEYS: [Key; 2] = [Key::Do, Key::Node];

/// The keys of a step at a port: a put or a judge.
pub const AT_PORT_KEYS: [Key; 2] = [Key::Do, Key::Port];

/// The keys of a take.
pub const TAKE_KEYS: [Key; 3] = [Key::Do, Key::Link, Key::Dir];

/// The keys of a step at a link: a cut or a mend.
pub const AT_LINK_KEYS: [Key; 2] = [Key::Do, Key::Link];

/// The keys of an inject.
pub const INJECT_KEYS: [Key; 4] = [Key::Do, Key::Link, Key::Dir, Key::Octets];

/// The keys of a drain.
pub const DRAIN_KEYS: [Key; 1] = [Key::Do];
