//! What happens to a node, and what it answers.
ghost use Rattle.std.specs.Prelude.{◌≡◌, ◌↔◌, IfOk, IsTrue};

use crate::octets::Octets;
use hsr_frame::{About, Cause, Mac, NoMemory, SendFault};

/// Names the entry of a send: the number of its node, and its place in that node's record.
#[derive(Clone, Copy, PartialEq, Eq)]
pub struct Probe {
    pub node: usize,
    pub place: usize,
}

/// A copy on its way: the send that it is of, if it is of one, and its octets, from the destination on. No verdict
/// depends on the probe.
#[derive(Clone, Drop, PartialEq, Eq)]
pub struct Carried {
    pub probe: Option<Probe>,
    pub octets: Octets,
}

/// What happens to a node.
#[derive(Clone, Drop, PartialEq, Eq)]
pub enum Event {
    /// It sends a frame of its own, of the type `kind`, with the control information of a VLAN tag if there is one;
    /// `from` is the place of the source among a Station's addresses, else 0.
    Send {
        from: u8,
        dst: Mac,
        vlan: Option<u16>,
        /// The EtherType.
        kind: u16,
        payload: Octets,
    },
    /// It sends a supervision frame.
    Supervise(About),
    /// A copy comes to a port.
    Arrive {
        port: u8,
        carried: Carried,
    },
    /// It drops what is expired.
    Age,
}

impl Event {
    ghost use Rattle.std.specs.Prelude.{◌≡◌};
    ghost use Rattle.hsr_node.specs.Record.{probe_handled};

    /// The send that the copies of an entry with this event are of: that of the copy that came, else the entry's own, which
    /// stands `here`.
    pub fn probe(&self, here: Probe) -> Option<Probe>
        ensures { result ≡ probe_handled here self.now }
    {
        match self {
            Event::Arrive { port: _, carried } => carried.probe,
            _ => Some(here),
        }
    }
}

/// What a node answers; `ports` are those by which a frame leaves, in the order of their numbers.
#[derive(Clone, Copy, PartialEq, Eq)]
pub enum Outcome {
    /// A frame was sent, with this number if it got one.
    Sent {
        seq: Option<u16>,
        ports: [bool; 4],
    },
    /// A supervision frame was sent; `life` counts the earlier ones, modulo 65536.
    Life {
        seq: u16,
        life: u16,
        ports: [bool; 4],
    },
    /// An arrival was judged; `seq` is the number that the node gave it, if it did.
    Judged {
        up: bool,
        ports: [bool; 4],
        seq: Option<u16>,
        cause: Cause,
    },
    /// What is expired was dropped.
    Aged,
}

impl Outcome {
    ghost use Rattle.hsr_node.specs.Record.{number_in};

    /// The sequence number that the node gave a frame, if it gave one.
    pub fn number(&self) -> Option<u16>
        ensures { result ≡ number_in self.now }
    {
        match self {
            Outcome::Sent { seq, .. } => *seq,
            Outcome::Life { seq, .. } => Some(*seq),
            Outcome::Judged { seq, .. } => *seq,
            Outcome::Aged => None,
        }
    }
}

/// Why a node refuses an event, in the order in which the reasons are tried.
#[derive(Clone, Copy, PartialEq, Eq)]
pub enum StepFault {
    /// The event doesn't fit the kind of node, its ports or its addresses.
    WrongEvent,
    /// The frame can't be sent.
    Send(SendFault),
    /// A supervision is about an address that isn't known on the interlink.
    NotProxied,
    /// The node has accepted as many steps as it may: `STEP_LIMIT`.
    Spent,
    /// Allocation failed for the entry or its copy; a node that keeps no record never answers this.
    NoMemory,
}

impl Carried {
    /// An equal copy; `NoMemory` if allocation fails.
    // Inline, since a call would pass the copy through memory.
    #[inline(always)]
    pub fn copy(&self) -> Result<Carried, NoMemory>
        ensures { IfOk result (λ carried. carried ≡ self.now) }
    {
        // A call of its own, whose contract says that the copy is equal.
        Ok(self.clone()?)
    }
}

impl Event {
    /// An equal event; `NoMemory` if allocation fails.
    // Inline, since a call would pass the event through memory.
    #[inline(always)]
    pub fn copy(&self) -> Result<Event, NoMemory>
        ensures { IfOk result (λ event. event ≡ self.now) }
    {
        Ok(self.clone()?)
    }
}

impl Outcome {
    /// Whether they are one outcome.
    #[tactic(auto, using(crate::proofs::SameOutcome::same_outcome))]
    pub fn is_same(&self, other: &Outcome) -> bool
        ensures { IsTrue result ↔ (self.now ≡ other.now) }
    {
        self == other
    }
}
