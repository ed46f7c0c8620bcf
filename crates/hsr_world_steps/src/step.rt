//! What may happen in a world, and why it doesn't.
ghost use Rattle.std.specs.Prelude.{◌≡◌};
ghost use Rattle.hsr_world_steps.specs.Refused.{world_fault};

use hsr_frame::{About, Mac};
use hsr_link::Dir;
use hsr_node::{Octets, StepFault};

/// The most octets that are injected at once: more than any frame has, so that too long ones can be tried.
pub const INJECT_LIMIT: usize = 2048;

/// What may happen in a world.
#[derive(Clone, Drop, PartialEq, Eq)]
pub enum Step {
    /// The moment is set, in microseconds, earlier ones too.
    Clock {
        at: u64,
    },
    /// A node sends a frame of its own, from the address at an index among its own.
    Send {
        node: usize,
        from: u8,
        dst: Mac,
        vlan: Option<u16>,
        /// The EtherType.
        kind: u16,
        payload: Octets,
    },
    /// A node sends a supervision frame.
    Supervise {
        node: usize,
        about: About,
    },
    /// A node drops what is expired.
    Age {
        node: usize,
    },
    /// The oldest copy in the outbox of a port goes onto its link.
    Put {
        node: usize,
        port: u8,
    },
    /// The oldest copy that waits in a direction of a link comes into the hand of the receiving port.
    Take {
        link: usize,
        dir: Dir,
    },
    /// A node judges the copy in the hand of a port.
    Judge {
        node: usize,
        port: u8,
    },
    /// A link is cut.
    Cut {
        link: usize,
    },
    /// A link is mended.
    Mend {
        link: usize,
    },
    /// Octets that no port sent go onto a link.
    Inject {
        link: usize,
        dir: Dir,
        octets: Octets,
    },
}

// `NoMemory` stands last, though it may come at any point: no clause says when an allocation fails.
/// Why a step is refused, in the order in which the reasons are tried.
#[derive(Clone, Copy, PartialEq, Eq)]
pub enum WorldFault {
    /// There is no node of this number.
    NoSuchNode,
    /// There is no link of this number.
    NoSuchLink,
    /// The node hasn't this port.
    NoSuchPort,
    /// The hand of the receiving port holds a copy.
    Busy,
    /// The outbox, the queue or the hand is empty.
    Nothing,
    /// More octets than `INJECT_LIMIT` are injected.
    TooLong,
    /// The node refuses the event.
    Node(StepFault),
    /// Room for the step was refused.
    NoMemory,
}

impl WorldFault {
    /// Why a step is refused for which a node refuses an event.
    pub fn of_node(fault: StepFault) -> WorldFault
        ensures { result ≡ world_fault fault }
    {
        match fault {
            // A failed allocation is no refusal by the node, so it is told in the same way wherever it comes.
            StepFault::NoMemory => WorldFault::NoMemory,
            _ => WorldFault::Node(fault),
        }
    }
}

/// Why a drain ends early.
/// The steps before it stand.
#[derive(Clone, Copy, PartialEq, Eq)]
pub enum DrainFault {
    /// As many steps as allowed were done, and something is left.
    Unsettled,
    /// A step was refused.
    World(WorldFault),
}
