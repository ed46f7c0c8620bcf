//! Why a run can't be certified.
ghost use Rattle.std.specs.Prelude.{◌≡◌};
ghost use Rattle.hsr_audit.specs.Doubts.{doubt_at};

use hsr_frame::NoMemory;
use hsr_table_flaws::Flaw;

/// Why a run can't be certified, in the order in which the reasons are tried: each of a ring's audit or of a network's,
/// or of both. Of those that name a place of a node's record the lowest node is named, and its lowest place.
#[derive(Clone, Copy, PartialEq, Eq)]
pub enum Doubt {
    /// The nodes and links aren't a ring of two DANHs or more, whatever their modes and addresses: link i joins B of
    /// node i with A of the next one.
    NotRing,
    /// Nothing was sent.
    Empty,
    /// A DANH or a RedBox is in mode N.
    Mode,
    /// Two nodes have one address.
    SameAddress,
    /// A link joins a port on a ring and an edge, which is a Station's port or an interlink; the lowest such link.
    Side {
        link: usize,
    },
    /// Copies were lost on more than one link.
    TwoLinks,
    /// An arrival wants an egress on which its send was noted before, and no such note was remembered.
    Forgot {
        node: usize,
        place: usize,
    },
    /// An arrival wants an egress that remembered its source and number by a note of another send.
    Mistaken {
        node: usize,
        place: usize,
    },
    /// A RedBox gives a frame of its Station a number, and had noted its send before.
    NumberedLate {
        node: usize,
        place: usize,
    },
    /// A send is due at a node to which no channel lost no copy of it; the lowest such node.
    CutOff {
        node: usize,
        place: usize,
        receiver: usize,
    },
    /// A send to one address is due at a Station whose RedBox didn't know that address each time that it handled the send.
    UnknownStation {
        node: usize,
        place: usize,
    },
    /// A send isn't covered: a supervision frame of a Station that is joined with a Station.
    Uncovered {
        node: usize,
        place: usize,
    },
}

/// Why there is no certificate.
#[derive(Clone, Copy, PartialEq, Eq)]
pub enum AuditFault {
    /// The first doubt.
    Doubt(Doubt),
    /// Allocation failed.
    NoMemory,
}

impl From<NoMemory> for AuditFault {
    ghost use Rattle.hsr_audit.specs.declared.doubt.AuditFault.TheVariants as spec;

    ghost from_gives = { λ _ fault. fault ≡ spec.NoMemory };

    fn from(_fault: NoMemory) -> AuditFault {
        AuditFault::NoMemory
    }
}

/// Where something was forgotten, mistaken or numbered late, as a doubt.
pub(crate) fn doubt_at(flaw: Flaw) -> Doubt
    ensures { result ≡ doubt_at flaw }
{
    match flaw {
        Flaw::Forgot { node, place } => Doubt::Forgot { node, place },
        Flaw::Mistaken { node, place } => Doubt::Mistaken { node, place },
        Flaw::Late { node, place } => Doubt::NumberedLate { node, place },
    }
}
