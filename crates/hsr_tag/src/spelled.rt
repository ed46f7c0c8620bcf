//! The octets of a frame in two pieces.
ghost use Rattle.std.specs.Prelude.{◌≡◌, ◌≤◌, ◌+◌, ◌++◌, ◌↔◌, IsTrue, length};
ghost use Rattle.arrayvec.specs.ArrayVec.{array_vec_len};
ghost use Rattle.hsr_frame.specs.Layout.{max_frame};

use arrayvec::ArrayVec;
use hsr_frame::{MAX_FRAME, put};
use std::marker::Model;

/// The most octets that are formed in front of those that stand elsewhere: two addresses, a VLAN tag, an HSR tag and a type
/// (IEC 62439-3 clause 5.6), which are 24, and a payload of the least length (IEEE 802.3 clause 4).
pub const HEAD_ROOM: usize = 70;

/// Octets of a frame, `MAX_FRAME` at most: those in front are formed here, the others stand elsewhere and are not copied.
#[derive(Drop)]
pub struct Spelled<'a> {
    head: ArrayVec<u8, HEAD_ROOM>,
    rest: &'a [u8],
}

impl<'a> Model for Spelled<'a> {
    ghost use Rattle.std.specs.Prelude.{ℕ, List, ◌++◌, ◌+◌, ◌≤◌, length};
    ghost use Rattle.arrayvec.specs.ArrayVec.{array_vec_len};
    ghost use Rattle.hsr_frame.specs.Layout.{max_frame};

    ghost Value = { List ℕ };

    ghost view = { λ s. s.head.items ++ s.rest.now };

    ghost invariant = { λ s. array_vec_len s.head + length s.rest.now ≤ max_frame };
}

impl<'a> Spelled<'a> {
    /// These octets in front, and those that stand elsewhere: `MAX_FRAME` at most.
    // Inline, since a call would pass the pieces through memory.
    #[inline(always)]
    pub fn joined(head: ArrayVec<u8, HEAD_ROOM>, rest: &'a [u8]) -> Spelled<'a>
        requires { array_vec_len head + length rest.now ≤ max_frame }
        ensures { result ≡ head.items ++ rest.now }
    {
        Spelled { head, rest }
    }

    /// Octets that all stand elsewhere, as those of a copy that goes on as it came: `MAX_FRAME` at most.
    pub fn whole(octets: &'a [u8]) -> Spelled<'a>
        requires { length octets.now ≤ max_frame }
        ensures { result ≡ octets.now }
    {
        Spelled {
            head: ArrayVec::new(),
            rest: octets,
        }
    }

    /// How many octets they are.
    pub fn len(&self) -> usize
        ensures value { result ≡ length self.now }
        ensures most { result ≤ max_frame }
    {
        self.head.len() + self.rest.len()
    }

    /// The octets in front, and those behind them.
    pub fn pieces(&self) -> (&[u8], &'a [u8])
        ensures value { result.0.now ++ result.1.now ≡ self.now }
        ensures most { length result.0.now + length result.1.now ≤ max_frame }
    {
        (self.head.as_slice(), self.rest)
    }

    /// Whether they are these octets.
    pub fn is_same(&self, octets: &[u8]) -> bool
        ensures { IsTrue result ↔ (self.now ≡ octets.now) }
    {
        // Compared in two pieces, so that nothing has to be joined.
        match octets.strip_prefix(self.head.as_slice()) {
            Some(rest) => rest == self.rest,
            None => false,
        }
    }

    /// A copy of the octets.
    pub fn to_array(&self) -> ArrayVec<u8, MAX_FRAME>
        ensures { result.items ≡ self.now }
    {
        let mut octets = ArrayVec::new();
        put(&mut octets, self.head.as_slice());
        put(&mut octets, self.rest);
        octets
    }
}
