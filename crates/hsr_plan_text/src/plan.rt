//! What a plan says.
ghost use Rattle.std.specs.Prelude.{◌≡◌, ◌≤◌};
ghost use Rattle.hsr_plan_text.specs.Plan.{per_second};

use crate::word::Word;
use hsr_frame::{Mac, Mode};
use std::marker::Model;

/// The nodes of a ring, in their order round it, each by its name.
#[derive(Drop)]
pub struct Ring {
    pub nodes: Vec<Word>,
}

impl Model for Ring {
    ghost use Rattle.std.specs.Prelude.{ℕ, List};

    ghost Value = { List (List ℕ) };

    ghost view = { λ r. r.nodes.items };
}

/// A RedBox with the stations behind it, by their names.
#[derive(Drop)]
pub struct Behind {
    pub redbox: Word,
    pub stations: Vec<Word>,
}

impl Model for Behind {
    ghost use Rattle.hsr_plan_text.specs.Plan.{Behind};

    ghost Value = { Behind };

    ghost view = { λ b. record { redbox = b.redbox; stations = b.stations.items } };
}

/// The address that a node or a station has in place of its default.
#[derive(Drop)]
pub struct Addressed {
    pub name: Word,
    pub mac: Mac,
}

/// The mode that a node has in place of mode H.
#[derive(Drop)]
pub struct InMode {
    pub name: Word,
    pub mode: Mode,
}

/// Which nodes there are: rings, the stations behind RedBoxes, addresses and modes.
#[derive(Drop)]
pub struct Network {
    pub rings: Vec<Ring>,
    pub redboxes: Vec<Behind>,
    pub addresses: Vec<Addressed>,
    pub modes: Vec<InMode>,
}

impl Model for Network {
    ghost use Rattle.hsr_plan_text.specs.Plan.{Network};

    ghost Value = { Network };

    ghost view = { λ n. record { rings = n.rings.items; redboxes = n.redboxes.items; addresses = n.addresses.items; modes = n.modes.items } };
}

/// When a node judges what comes by a wire.
#[derive(Clone, Copy, PartialEq, Eq)]
pub enum Switching {
    /// Once a frame is there as a whole.
    Store,
    /// Once its first 22 octets are there, where the way on is free, else as `Store`.
    Cut,
}

/// The wires of a plan: how many Mbit/s they carry, how many microseconds a node keeps a frame, and when it judges it.
#[derive(Clone, Copy, PartialEq, Eq)]
pub struct Wire {
    pub rate: u64,
    pub residence: u64,
    pub switching: Switching,
}

/// How long copies take from node to node.
#[derive(Clone, Copy, PartialEq, Eq)]
pub enum Transfer {
    /// Each is taken and judged this number of microseconds after it was put.
    Hop(u64),
    /// In each direction of a link one frame goes at a time.
    Wire(Wire),
}

/// How copies move.
#[derive(Clone, Copy, PartialEq, Eq)]
pub enum Moves {
    /// All are at their end before the next send.
    EachSendDrains,
    /// All are at their end before the next moment.
    EachMomentDrains,
    /// Each is put on its link at once, and taken and judged so much later.
    Timed(Transfer),
}

/// Whom a stream is for.
#[derive(Drop)]
pub enum Target {
    Named(Word),
    Address(Mac),
}

/// What a stream's frames have in them.
#[derive(Clone, Copy, PartialEq, Eq)]
pub enum Kind {
    /// GOOSE (IEC 61850-8-1), with counting stNum and sqNum.
    Goose,
    /// Sampled values (IEC 61850-9-2), with counting smpCnt.
    SampledValues,
    /// A count and zeros, under this type.
    Number(u16),
}

/// By what receivers know a stream of GOOSE or sampled values, as far as it is said: the APPID of its first sender, the names of
/// the control block and the data set in each sender, and goID or svID.
#[derive(Drop)]
pub struct Naming {
    pub appid: Option<u64>,
    pub control_block: Option<Word>,
    pub id: Option<Word>,
    pub data_set: Option<Word>,
}

/// What each frame of a stream has alike: its target, its kind, its size in octets of payload, the control information of
/// its VLAN tag, and its names.
#[derive(Drop)]
pub struct Framing {
    pub target: Target,
    pub kind: Kind,
    pub size: usize,
    pub tag: Option<u16>,
    pub naming: Naming,
}

/// How many samples there are a second: 80 a period of 50 or 60 Hz, 256 a period of 50 Hz, and 240 a period of 60 Hz, as IEC 61869-9 has it.
#[derive(Clone, Copy, PartialEq, Eq)]
pub enum SampleRate {
    Rate4000,
    Rate4800,
    Rate12800,
    Rate14400,
}

impl SampleRate {
    /// The rate as a number.
    pub fn per_second(self) -> u64
        ensures value { result ≡ per_second self }
        ensures some { 4000 ≤ result }
        ensures most { result ≤ 14400 }
    {
        match self {
            SampleRate::Rate4000 => 4000,
            SampleRate::Rate4800 => 4800,
            SampleRate::Rate12800 => 12800,
            SampleRate::Rate14400 => 14400,
        }
    }
}

/// How a stream's frames follow each other from a start on.
#[derive(Clone, Copy, PartialEq, Eq)]
pub enum Pace {
    /// By gaps in microseconds: the first, by how much a gap is longer than the one before, and the longest.
    Gaps { every: u64, grow: u64, most: u64 },
    /// As samples do of which there are so many a second.
    Samples(SampleRate),
}

/// When a stream's frames are sent, in microseconds: from each start on, at what pace, how many samples each has, and how many
/// frames are sent from each start on, or up to when.
#[derive(Drop)]
pub struct Timing {
    pub starts: Vec<u64>,
    pub pace: Pace,
    pub asdus: u8,
    pub count: Option<u64>,
    pub until: Option<u64>,
}

impl Model for Timing {
    ghost use Rattle.hsr_plan_text.specs.Plan.{Timing};

    ghost Value = { Timing };

    ghost view = { λ t. record { starts = t.starts.items; pace = t.pace; asdus = t.asdus; count = t.count; until = t.until } };
}

/// Frames that each of some nodes sends again and again.
/// `from` are the senders, each of which sends all frames; `receivers` are those who need them, and none where they are for all
/// that they are due at.
#[derive(Drop)]
pub struct Stream {
    pub from: Vec<Word>,
    pub receivers: Vec<Word>,
    pub framing: Framing,
    pub timing: Timing,
}

impl Model for Stream {
    ghost use Rattle.hsr_plan_text.specs.Plan.{Stream};

    ghost Value = { Stream };

    ghost view = { λ s. record { from = s.from.items; receivers = s.receivers.items; framing = s.framing; timing = s.timing } };
}

/// An end of a link: a node by its name, and the letter of its port where that is said.
#[derive(Drop)]
pub struct LinkEnd {
    pub name: Word,
    pub letter: Option<u8>,
}

/// What happens to a link or a node.
#[derive(Drop)]
pub enum Deed {
    Cut { first: LinkEnd, second: LinkEnd },
    Mend { first: LinkEnd, second: LinkEnd },
    /// All links of the node are cut, and it sends nothing.
    Off(Word),
    On(Word),
}

/// What happens at a moment, in microseconds.
#[derive(Drop)]
pub struct Event {
    pub at: u64,
    pub deed: Deed,
}

/// What a plan says besides its streams and events.
#[derive(Drop)]
pub struct Outline {
    pub title: Option<String>,
    /// How many copies wait in each direction of a link, where that is said.
    pub capacity: Option<usize>,
    /// The period of supervision in microseconds; 0 for none.
    // Microseconds, though the text says milliseconds: no crate below knows another unit.
    pub life: u64,
    /// Where streams and supervision end, in microseconds.
    pub until: Option<u64>,
    /// The moment 0, in seconds since 1970.
    pub epoch: u64,
    pub moves: Moves,
    pub network: Network,
}

impl Model for Outline {
    ghost use Rattle.std.specs.Prelude.{option_map, string_bytes};
    ghost use Rattle.hsr_plan_text.specs.Plan.{Outline};

    ghost Value = { Outline };

    ghost view = { λ o. record { title = option_map string_bytes o.title; capacity = o.capacity; life = o.life; until = o.until; epoch = o.epoch; moves = o.moves; network = o.network } };
}

/// What a text says as a plan.
#[derive(Drop)]
pub struct Plan {
    pub outline: Outline,
    pub streams: Vec<Stream>,
    pub events: Vec<Event>,
}

impl Model for Plan {
    ghost use Rattle.hsr_plan_text.specs.Plan.{Plan};

    ghost Value = { Plan };

    ghost view = { λ p. record { outline = p.outline; streams = p.streams.items; events = p.events.items } };
}
