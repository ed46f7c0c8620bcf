//! A payload that stands elsewhere, or a short one that is held here.
ghost use Rattle.std.specs.Prelude.{◌≡◌, ◌≤◌, ◌++◌, length};
ghost use Rattle.arrayvec.specs.ArrayVec.{array_vec_len};
ghost use Rattle.hsr_frame.specs.Layout.{max_payload};

use crate::spelled::{HEAD_ROOM, Spelled};
use arrayvec::ArrayVec;
use hsr_frame::{copied, put};
use std::marker::Model;

/// The most octets of a payload that is held in its frame: the least length of a payload (IEEE 802.3 clause 4).
pub const SHORT_PAYLOAD: usize = 46;

/// Where the octets of a payload are.
#[derive(Drop)]
enum Held<'a> {
    /// They stand elsewhere.
    // What came and what is sent stand in events already, so they aren't copied.
    There(&'a [u8]),
    /// They are held here.
    // A supervision payload is made by the node itself, so it stands nowhere else.
    Here(ArrayVec<u8, SHORT_PAYLOAD>),
}

/// The octets of a payload: they stand elsewhere, as in what came, or they were made and are few.
#[derive(Drop)]
pub struct Payload<'a> {
    held: Held<'a>,
}

impl<'a> Model for Payload<'a> {
    ghost use Rattle.std.specs.Prelude.{ℕ, List};

    ghost Value = { List ℕ };

    ghost use Rattle.hsr_tag.specs.Payload.{octets_of};

    ghost view = { λ p. octets_of p.held };
}

impl<'a> Payload<'a> {
    ghost use Rattle.hsr_tag.specs.Spelled.{longest_head};

    /// Octets that stand elsewhere.
    pub fn there(octets: &'a [u8]) -> Payload<'a>
        ensures { result ≡ octets.now }
    {
        Payload {
            held: Held::There(octets),
        }
    }

    /// Few octets, which are held here.
    pub fn here(octets: ArrayVec<u8, SHORT_PAYLOAD>) -> Payload<'a>
        ensures { result ≡ octets.items }
    {
        Payload {
            held: Held::Here(octets),
        }
    }

    /// The octets, in order.
    pub fn as_slice(&self) -> &[u8]
        ensures { result.now ≡ self.now }
    {
        match &self.held {
            Held::There(octets) => octets,
            Held::Here(octets) => octets.as_slice(),
        }
    }

    /// The same octets; those that stand elsewhere are not copied.
    // Inline, since a call would pass the frame through memory.
    #[inline(always)]
    pub fn copy(&self) -> Payload<'a>
        ensures { result ≡ self.now }
    {
        match &self.held {
            Held::There(octets) => Payload::there(octets),
            Held::Here(octets) => Payload::here(copied(octets.as_slice())),
        }
    }

    /// The octets behind the head of a frame; those that stand elsewhere are not copied. The head has 24 octets at most, the
    /// payload `MAX_PAYLOAD`.
    // Inline, since a call would pass the pieces through memory.
    #[inline(always)]
    pub fn behind(&self, head: ArrayVec<u8, HEAD_ROOM>) -> Spelled<'a>
        requires head { array_vec_len head ≤ longest_head }
        requires payload { length self.now ≤ max_payload }
        ensures { result ≡ head.items ++ self.now }
    {
        match &self.held {
            Held::There(octets) => Spelled::joined(head, octets),
            Held::Here(octets) => {
                // A short payload joins the head, and nothing stands behind: `HEAD_ROOM` is for both.
                let mut head = head;
                put(&mut head, octets.as_slice());
                Spelled::joined(head, b"")
            }
        }
    }
}
