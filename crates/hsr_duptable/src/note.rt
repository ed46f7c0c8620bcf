//! What a duplicate table holds.
ghost use Rattle.std.specs.Prelude.{◌≡◌};

use hsr_frame::Mac;
use std::marker::Model;

/// For how long a frame is remembered, in microseconds: the EntryForgetTime of IEC 62439-3 clause 5.
pub const ENTRY_FORGET: u64 = 400_000;

/// What tells a frame from others (IEC 62439-3 clause 5.3): its source, and its sequence number, modulo 65536.
#[derive(Clone, Copy, PartialEq, Eq)]
pub struct Key {
    pub src: Mac,
    pub seq: u16,
}

// A model: a plain struct that holds a `Mac` gets no proof where it is passed by value twice.
impl Model for Key {
    ghost use Rattle.hsr_duptable.specs.Key.{Key};

    ghost Value = { Key };

    ghost view = { λ k. record { src = k.src; seq = k.seq } };

    ghost inverse = { λ k. record { src = k.src; seq = k.seq } };
}

/// A frame that passed, and the moment at which it did, in microseconds.
#[derive(Clone, Copy, PartialEq, Eq)]
pub struct Note {
    pub key: Key,
    pub moment: u64,
}

impl Note {
    ghost use Rattle.hsr_duptable.specs.Notes.{is_unexpired};

    /// Whether less than `forget` microseconds have passed since.
    pub(crate) fn is_unexpired(&self, forget: u64, at: u64) -> bool
        ensures { result ≡ is_unexpired forget at self.now }
    {
        // A difference and no sum: `moment + forget` may overflow.
        at.saturating_sub(self.moment) < forget
    }
}
