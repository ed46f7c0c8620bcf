//! A reason for doubt.
ghost use Rattle.std.specs.Prelude.{◌≡◌, ◌++◌, ◌∷◌, [], option_to_list, OnOk};

use hsr_frame::{FrameFault, Mac, NoMemory};

/// The word of a reason, in the order of the table of reasons.
#[derive(Clone, Copy, PartialEq, Eq)]
pub enum Word {
    Empty,
    Unjudged,
    Dropped,
    Absent,
    Storm,
    Again,
    Clash,
    Late,
    OneSided,
    Lost,
    Overtaken,
    OneWay,
    Restart,
    Crowded,
    Silent,
    Life,
    Malformed,
    Untagged,
    Size,
    Lane,
}

/// Where a reason first holds: which of the file's packets, from 1, and its moment in nanoseconds since 1970.
#[derive(Clone, Copy, PartialEq, Eq)]
pub struct Spot {
    pub packet: u32,
    pub at: u64,
}

/// What is told of the first that a reason counts. Times are nanoseconds.
#[derive(Clone, Copy)]
pub enum What {
    /// There is no tagged frame.
    NoFrame,
    /// All group frames are open.
    AllOpen,
    Packets {
        interface: usize,
        packets: u64,
    },
    /// A source that is expected, and none heard of.
    Source {
        source: Mac,
    },
    Copy {
        interface: usize,
        source: Mac,
        number: u16,
    },
    Frame {
        source: Mac,
        number: u16,
    },
    After {
        source: Mac,
        number: u16,
        time: u64,
    },
    Way {
        point: usize,
        way: u8,
    },
    Numbers {
        source: Mac,
        first: u16,
        last: u16,
        missing: u64,
    },
    Behind {
        interface: usize,
        source: Mac,
        number: u16,
        behind: u16,
    },
    Alone {
        point: usize,
        source: Mac,
        number: u16,
        way: u8,
    },
    Restart {
        source: Mac,
        number: u16,
        after: u16,
    },
    Frames {
        frames: usize,
        table: u64,
    },
    Silence {
        source: Mac,
        time: u64,
    },
    NoSupervision {
        source: Mac,
    },
    Life {
        source: Mac,
        number: u16,
        after: u16,
    },
    Fault {
        interface: usize,
        fault: FrameFault,
    },
    Untagged {
        interface: usize,
        ethertype: u16,
        source: Mac,
    },
    Size {
        source: Mac,
        number: u16,
        size: u16,
        is: usize,
    },
    Lane {
        source: Mac,
        number: u16,
        path: u8,
    },
}

/// A reason for doubt: how many it counts, and where it first holds, if that is a packet.
#[derive(Clone, Copy)]
pub struct Reason {
    pub word: Word,
    pub count: u64,
    pub spot: Option<Spot>,
    pub what: What,
}

/// Puts a reason last.
fn push_reason(reasons: &mut Vec<Reason>, reason: &Reason) -> Result<(), NoMemory>
    ensures { OnOk result (reasons.new.items ≡ reasons.old.items ++ reason.now ∷ []) }
{
    // All fields are named, since a copy of the whole gets no proof.
    let own = Reason {
        word: reason.word,
        count: reason.count,
        spot: reason.spot,
        what: reason.what,
    };
    reasons.push(own)?;
    Ok(())
}

/// Puts a reason last, if there is one.
pub(crate) fn put_reason(reasons: &mut Vec<Reason>, reason: &Option<Reason>) -> Result<(), NoMemory>
    ensures { OnOk result (reasons.new.items ≡ reasons.old.items ++ option_to_list reason.now) }
{
    match reason {
        None => Ok(()),
        Some(own) => push_reason(reasons, own),
    }
}

/// What is told of a reason, if there is one. A function that hands a reason on gets a proof once it has looked into it.
pub(crate) fn what_in(reason: &Option<Reason>) -> Option<What> {
    match reason {
        None => None,
        Some(own) => Some(own.what),
    }
}
