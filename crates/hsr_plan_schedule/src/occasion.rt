//! What happens at the moments of a plan.
ghost use Rattle.std.specs.Prelude.{◌≡◌};

use hsr_frame::Mac;

/// Who sends: a node, by its number, from the address at an index among its own.
#[derive(Clone, Copy, PartialEq, Eq)]
pub struct Sender {
    pub node: usize,
    pub from: u8,
    pub mac: Mac,
}

/// A frame of a stream: the stream's number, the index of its sender among the stream's, the sender, the destination, the number
/// of the start that it follows, and how many were sent since.
#[derive(Clone, Copy, PartialEq, Eq)]
pub struct Sent {
    pub stream: usize,
    pub index: usize,
    pub sender: Sender,
    pub dst: Mac,
    pub state: usize,
    pub count: usize,
}

impl Sent {
    /// The frame of that number since the same start.
    /// All else stays as it is.
    pub(crate) fn with_count(&self, count: usize) -> Sent
        ensures { result ≡ record self.now { count = count } }
    {
        Sent {
            stream: self.stream,
            index: self.index,
            sender: self.sender,
            dst: self.dst,
            state: self.state,
            count,
        }
    }

    /// The same frame of the start of that number.
    pub(crate) fn with_state(&self, state: usize) -> Sent
        ensures { result ≡ record self.now { state = state } }
    {
        Sent {
            stream: self.stream,
            index: self.index,
            sender: self.sender,
            dst: self.dst,
            state,
            count: self.count,
        }
    }
}

/// What happens.
#[derive(Clone, Copy, PartialEq, Eq)]
pub enum Happening {
    Cut { link: usize },
    Mend { link: usize },
    Off { node: usize },
    On { node: usize },
    Life { node: usize },
    Send(Sent),
}

/// What happens at a moment, in microseconds.
#[derive(Clone, Copy, PartialEq, Eq)]
pub struct Occasion {
    pub at: u64,
    pub what: Happening,
}
