//! What kind of node stands at a place.
ghost use Rattle.std.specs.Prelude.{◌≡◌, ◌≤◌, IfOk};

use arrayvec::ArrayVec;
use hsr_frame::{Mac, Mode, NoMemory};

/// A kind of node, with its addresses (IEC 62439-3 clause 5). The ports have numbers: A is 0 and B is 1; a RedBox has
/// its interlink 2, a QuadBox has C 2 and D 3, and a Station has the one port 0.
#[derive(Clone, Drop, PartialEq, Eq)]
pub enum Place {
    /// A doubly attached node.
    Danh { mac: Mac, mode: Mode },
    /// A node between a ring and an interlink.
    RedBox { mac: Mac, mode: Mode },
    /// A node between two rings, which has no address.
    QuadBox,
    /// A node with one port, which knows no HSR.
    Station { macs: ArrayVec<Mac, 16> },
}

impl Place {
    ghost use Rattle.hsr_node.specs.Place.{owns, ports};

    /// How many ports it has; they are numbered from 0.
    pub fn ports(&self) -> u8
        ensures value { result ≡ ports self.now }
        ensures most { result ≤ 4 }
    {
        match self {
            Place::Danh { .. } => 2,
            Place::RedBox { .. } => 3,
            Place::QuadBox => 4,
            Place::Station { .. } => 1,
        }
    }

    /// Whether an address is the node's own: a QuadBox has none.
    pub fn owns(&self, mac: Mac) -> bool
        ensures { result ≡ owns self.now mac }
    {
        match self {
            Place::Danh { mac: own, .. } | Place::RedBox { mac: own, .. } => *own == mac,
            Place::QuadBox => false,
            Place::Station { macs } => mac.is_among(macs.as_slice()),
        }
    }

    /// An equal place; `NoMemory` if allocation fails.
    pub fn copy(&self) -> Result<Place, NoMemory>
        ensures { IfOk result (λ place. place ≡ self.now) }
    {
        Ok(self.clone()?)
    }
}
