//! Where a frame can leave a node.
ghost use Rattle.std.specs.Prelude.{[], ◌∷◌, ◌≡◌};
ghost use Rattle.hsr_frame.specs.Egress.{a, b, cause_of, exits_of, is_any, is_supervision, no_exits, nowhere};

use crate::layout::ETHERTYPE_SUPERVISION;
use crate::mac::Mac;
use crate::node::Cause;

/// A set of egresses: up, and ports. `c` is port C of a QuadBox, or a RedBox's interlink.
#[derive(Clone, Copy, PartialEq, Eq)]
pub struct Exits {
    // Fields and no list: passing, noting and counting go by field, and each egress asks its table once.
    pub up: bool,
    pub a: bool,
    pub b: bool,
    pub c: bool,
    pub d: bool,
}

impl Exits {
    /// No egress.
    pub fn none() -> Exits
        ensures { result ≡ no_exits }
    {
        Exits {
            up: false,
            a: false,
            b: false,
            c: false,
            d: false,
        }
    }

    /// Both ring ports, by which a node on a ring sends (IEC 62439-3 clause 5.3).
    pub fn both_ports() -> Exits
        ensures { result ≡ exits_of (a ∷ b ∷ []) }
    {
        Exits {
            a: true,
            b: true,
            ..Exits::none()
        }
    }

    /// Whether some egress is in the set.
    pub fn is_any(self) -> bool
        ensures { result ≡ is_any self }
    {
        self.up || self.a || self.b || self.c || self.d
    }
}

/// The egresses that want a frame, and the cause where none does.
#[derive(Clone, Copy, PartialEq, Eq)]
pub struct Wants {
    pub exits: Exits,
    pub cause: Cause,
}

impl Wants {
    /// No egress wants the frame.
    pub fn nowhere(cause: Cause) -> Wants
        ensures { result ≡ nowhere cause }
    {
        Wants {
            exits: Exits::none(),
            cause,
        }
    }

    /// These egresses want the frame; where there are none it is foreign.
    /// The cause is used only where `exits` is empty.
    pub fn to(exits: Exits) -> Wants
        ensures { result ≡ record { exits = exits; cause = Cause.Foreign } }
    {
        Wants {
            exits,
            cause: Cause::Foreign,
        }
    }

    /// Why a frame that these egresses pass went where it did.
    pub fn cause_of(self, passes: Exits) -> Cause
        ensures { result ≡ cause_of self passes }
    {
        if passes.is_any() {
            Cause::Passed
        } else if self.exits.is_any() {
            // An egress that wants a frame passes it, unless its table remembers it.
            Cause::Duplicate
        } else {
            self.cause
        }
    }
}

/// Whether a frame of this destination and type is a supervision frame (IEC 62439-3 clause 5.7).
pub fn is_supervision(dst: Mac, ethertype: u16) -> bool
    ensures { result ≡ is_supervision dst ethertype }
{
    dst.is_supervision() && ethertype == ETHERTYPE_SUPERVISION
}
