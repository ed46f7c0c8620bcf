//! Why a scenario can't be certified in any order.
ghost use Rattle.std.specs.Prelude.{◌≡◌};

use hsr_frame::NoMemory;

/// Why a scenario can't be certified, in the order in which the reasons are tried; each at its lowest step. Steps, nodes and links
/// are counted from 0.
#[derive(Clone, Copy, PartialEq, Eq)]
pub enum Doubt {
    /// No step asks for a send.
    Empty,
    /// A step puts, takes, judges or injects: it asks for one order.
    Fine { step: usize },
    /// The span of a send doesn't end: no drain comes behind it.
    Open { step: usize },
    /// A DANH or a RedBox is in mode N.
    Mode,
    /// Two nodes have one address.
    SameAddress,
    /// A link joins a port on a ring and an edge, which is a Station's port or an interlink; the lowest such link.
    Side { link: usize },
    /// Some order refuses the step.
    Refused { step: usize },
    /// A clock step goes back.
    Back { step: usize },
    /// The clock rises by 400 milliseconds or more in the span of a send.
    Late { step: usize },
    /// The span of a send meets more spans than a table has entries.
    Crowded { step: usize },
    /// A node may use a number again.
    Wrapped { step: usize },
    /// A send is to one address of a Station, or is supervision of a Station that is joined with a Station.
    Uncovered { step: usize },
    /// More sends are open than a direction of a link has room.
    Queue { step: usize },
    /// No route leads to a node that a send is due at, over links that are up in all its span; the lowest such node.
    CutOff { step: usize, node: usize },
}

/// Why there is no certificate.
#[derive(Clone, Copy, PartialEq, Eq)]
pub enum CertifyFault {
    /// The first doubt.
    Doubt(Doubt),
    /// Allocation failed.
    NoMemory,
}

impl From<NoMemory> for CertifyFault {
    ghost use Rattle.hsr_certify.specs.declared.doubt.CertifyFault.TheVariants as spec;

    ghost from_gives = { λ _ fault. fault ≡ spec.NoMemory };

    fn from(_fault: NoMemory) -> CertifyFault {
        CertifyFault::NoMemory
    }
}
