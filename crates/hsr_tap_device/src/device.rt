//! What a document says of a device.
use hsr_frame::{Mac, Mode};
use hsr_node::{Octets, Role};
use std::marker::Model;

/// Where copies enter and leave a device: by a ring port, by the interlink of a RedBox, or to and from the host.
#[derive(Clone, Copy, PartialEq, Eq)]
pub enum End {
    A,
    B,
    C,
    D,
    I,
    Up,
}

/// Which way the packets of an interface pass its end.
#[derive(Clone, Copy, PartialEq, Eq)]
pub enum Passing {
    /// All go into the device.
    In,
    /// All leave it.
    Out,
    /// The flags of each packet tell it.
    Flags,
    /// A tagged packet with the port's lane leaves by it, any other goes in.
    Lane,
}

/// What an interface of a capture is.
#[derive(Clone, Copy, PartialEq, Eq)]
pub struct Tap {
    pub end: End,
    pub passing: Passing,
}

/// An interface of a capture, by its name or its number, and what it is.
#[derive(Drop)]
pub struct Named {
    pub name: Octets,
    pub tap: Tap,
}

/// From one moment up to before another, in microseconds, copies by an end may be missing.
#[derive(Clone, Copy, PartialEq, Eq)]
pub struct Down {
    pub port: End,
    pub from: u64,
    pub until: u64,
}

/// What need not agree.
#[derive(Clone, Copy, PartialEq, Eq)]
pub struct Ignored {
    /// Paths of frames that are sent on.
    pub path: bool,
    /// Zeros at the end of a short payload, and whether the size counts them.
    pub padding: bool,
    /// Supervision frames that are passed up.
    pub life_up: bool,
    /// Of own supervision, what stands behind the address.
    pub life_payload: bool,
    /// Sources of frames that leave by the interlink.
    pub interlink_source: bool,
    /// Frames to single addresses that leave by the interlink.
    pub interlink_flood: bool,
    /// Untagged frames to link-local groups that leave by ring ports.
    pub link_local: bool,
}

/// The role of a device, its address, if it has one, and its mode.
#[derive(Clone, Copy, PartialEq, Eq)]
pub struct Owner {
    pub role: Role,
    pub mac: Option<Mac>,
    pub mode: Mode,
}

/// Times of a judgement, in microseconds.
#[derive(Clone, Copy, PartialEq, Eq)]
pub struct Times {
    /// A copy is in time up to so long after what caused it, and so long before it.
    pub within: u64,
    pub early: u64,
    /// Only packets at these moments count, both included.
    pub from: u64,
    pub until: Option<u64>,
    /// Copies before this moment may be missing or extra.
    pub warm: u64,
}

/// The first number of a device, and its first supervision number, where they are said.
#[derive(Clone, Copy, PartialEq, Eq)]
pub struct Numbers {
    pub start: Option<u16>,
    pub life_start: Option<u16>,
}

/// What a document says of a device.
#[derive(Drop)]
pub struct Device {
    pub owner: Owner,
    /// How many entries its duplicate tables have.
    pub table: u32,
    pub times: Times,
    pub numbers: Numbers,
    /// Whether all that its host sends is in the capture, where that is said.
    pub host: Option<bool>,
    /// Addresses that a RedBox knows from the start.
    pub stations: Vec<Mac>,
    /// Whether nothing is open at the end of the capture.
    pub whole: bool,
    pub ignored: Ignored,
    pub downs: Vec<Down>,
    pub interfaces: Vec<Named>,
}

impl Model for Device {
    ghost use Rattle.hsr_tap_device.specs.Device.{DeviceFields};

    ghost Value = { DeviceFields };

    ghost view = { λ d. record { owner = d.owner; table = d.table; times = d.times; numbers = d.numbers; host = d.host; stations = d.stations.items; whole = d.whole; ignored = d.ignored; downs = d.downs.items; interfaces = d.interfaces.items } };
}
