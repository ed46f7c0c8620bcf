//! Octets that are owned, alone or together with others.
ghost use Rattle.std.specs.Prelude.{◌≡◌, ◌≤◌, length, vec_capacity, IfOk, IfSome};
ghost use Rattle.hsr_node.specs.Octets.{octets_in};

use hsr_frame::NoMemory;
use hsr_tag::Spelled;
use std::alloc::{AllocError, Global};
use std::marker::Model;
use std::sync::ArcSlice;

/// Where octets stand: in room of their own, or in room that all copies of them share.
#[derive(Drop)]
enum Room {
    Own(Vec<u8>),
    Shared(ArcSlice<u8>),
}

/// Octets of a payload or of a copy on its way, of any number. A clone of octets that came from a slice or a frame takes no
/// room of its own.
pub struct Octets {
    room: Room,
}

impl Model for Octets {
    ghost use Rattle.std.specs.Prelude.{ℕ, List};
    ghost use Rattle.hsr_node.specs.Octets.{octets_in};

    ghost Value = { List ℕ };

    ghost view = { λ o. octets_in o.room };
}

/// The octets of a frame, in room that is enough for them and holds nothing else then.
fn spelled_bytes(room: Vec<u8>, spelled: &Spelled<'_>) -> Vec<u8>
    requires { length spelled.now ≤ vec_capacity room }
    ensures { result.items ≡ spelled.now }
{
    let mut bytes = room;
    bytes.clear();
    let (head, rest) = spelled.pieces();
    // Neither is refused: the room is enough by `requires`.
    let Ok(()) = bytes.extend_from_slice(head) else {
        unreachable!()
    };
    let Ok(()) = bytes.extend_from_slice(rest) else {
        unreachable!()
    };
    // The room may have been made for the longest frame, before it was known which one leaves.
    bytes.shrink_to_fit();
    bytes
}

impl Octets {
    /// These octets.
    pub fn new(bytes: Vec<u8>) -> Octets
        ensures { result ≡ bytes.items }
    {
        Octets {
            room: Room::Own(bytes),
        }
    }

    /// These octets, in room that its clones will share; `NoMemory` if allocation fails.
    fn shared(bytes: Vec<u8>) -> Result<Octets, NoMemory>
        ensures { IfOk result (λ octets. octets ≡ bytes.items) }
    {
        let bytes = ArcSlice::from_vec(bytes)?;
        Ok(Octets {
            room: Room::Shared(bytes),
        })
    }

    /// A copy of these octets; `NoMemory` if allocation fails.
    pub fn from_slice(alloc: Global, bytes: &[u8]) -> Result<Octets, NoMemory>
        ensures { IfOk result (λ octets. octets ≡ bytes.now) }
    {
        Octets::shared(Vec::from_slice(alloc, bytes)?)
    }

    /// The octets of a frame, in room that is enough for them; what the room held is gone, and what is not needed given
    /// back.
    pub fn spelled_in(room: Vec<u8>, spelled: &Spelled<'_>) -> Octets
        requires { length spelled.now ≤ vec_capacity room }
        ensures { result ≡ spelled.now }
    {
        // Room to share would have to be asked for, and here nothing may be refused.
        Octets::new(spelled_bytes(room, spelled))
    }

    /// The octets of a frame; `NoMemory` if allocation fails.
    pub fn from_spelled(alloc: Global, spelled: &Spelled<'_>) -> Result<Octets, NoMemory>
        ensures { IfOk result (λ octets. octets ≡ spelled.now) }
    {
        let room = Vec::with_capacity(alloc, spelled.len())?;
        Octets::shared(spelled_bytes(room, spelled))
    }

    /// The room in which the octets stand, with them, if it is theirs alone: so that it can be used again.
    pub fn into_room(self) -> Option<Vec<u8>>
        ensures { IfSome result (λ room. room.items ≡ self) }
    {
        let Octets { room } = self;
        match room {
            Room::Own(bytes) => Some(bytes),
            Room::Shared(_) => None,
        }
    }

    /// The octets, in order.
    pub fn as_slice(&self) -> &[u8]
        ensures { result.now ≡ self.now }
    {
        match &self.room {
            Room::Own(bytes) => bytes.as_slice(),
            Room::Shared(bytes) => bytes.as_slice(),
        }
    }
}

impl Room {
    /// The same octets in room to share: in the same room, where it is such.
    // Inline, since a call would pass the room through memory.
    #[inline(always)]
    fn share(&self) -> Result<Room, AllocError>
        ensures { IfOk result (λ room. octets_in room ≡ octets_in self.now) }
    {
        let bytes = match self {
            Room::Own(bytes) => ArcSlice::from_slice(*bytes.allocator(), bytes.as_slice())?,
            Room::Shared(bytes) => bytes.clone()?,
        };
        Ok(Room::Shared(bytes))
    }
}

impl Drop for Octets {
    // A call, and no derive: else each function that lets octets go would be proved for each kind of room.
    fn drop(self) {
        let Octets { room: _room } = self;
    }
}

impl Clone for Octets {
    ghost use Rattle.std.specs.Prelude.{◌≡◌};

    ghost is_clone = { λ a b. b ≡ a };

    // Inline, since a call would pass the room through memory.
    #[inline(always)]
    fn clone(&self) -> Result<Octets, AllocError> {
        let room = self.room.share()?;
        Ok(Octets { room })
    }
}

impl PartialEq for Octets {
    ghost use Rattle.std.specs.Prelude.{nat_eq};
    ghost use Rattle.std.specs.Cmp.{partial_equiv_from_equiv};
    ghost use Rattle.std.specs.Cmp.Lexicographic.{nat_list_eq_equiv, pointwise};

    ghost eq = { pointwise nat_eq };

    ghost laws = { partial_equiv_from_equiv nat_list_eq_equiv };

    fn eq(&self, other: &Octets) -> bool {
        self.as_slice() == other.as_slice()
    }
}

impl Eq for Octets {
    ghost use Rattle.std.specs.Cmp.Lexicographic.{nat_list_eq_equiv};

    ghost laws = { nat_list_eq_equiv };
}
