//! Copies as they were captured.
ghost use Rattle.std.specs.Prelude.{◌≡◌, ◌<◌, ◌≤◌, ◌^◌, length};
ghost use Rattle.hsr_frame.specs.Layout.{max_frame};
ghost use Rattle.hsr_frame_copies.specs.Contents.{copy_at, payload_at};
ghost use Rattle.hsr_frame_groups.specs.Frames.{key_by, key_of};

use crate::noted::Noted;
use hsr_frame::{Mac, copied};
use hsr_frame_copies::{Copy, copy_at};
use std::marker::Model;
use std::snapshot::Snapshot;

/// A copy that was captured: when, in nanoseconds since 1970; as which of the file's packets, from 1; in which direction, by its
/// number; and what it says. It is held as the packet's octets and read anew from them, so that a copy takes 32 octets of room.
#[derive(Drop)]
pub struct Caught<'a> {
    at: u64,
    octets: &'a [u8],
    packet: u32,
    size: u16,
    direction: u16,
}

impl<'a> Model for Caught<'a> {
    ghost use Rattle.std.specs.Prelude.{◌≤◌, length};
    ghost use Rattle.hsr_frame.specs.Layout.{max_frame};
    ghost use Rattle.hsr_frame_copies.specs.Contents.{copy_at, payload_at};
    ghost use Rattle.hsr_frame_groups.specs.Frames.{CaughtFields};

    ghost Value = { CaughtFields };

    ghost view = { λ c. record { at = c.at; packet = c.packet; direction = c.direction; copy = copy_at c.octets.now c.size } };

    ghost invariant = { λ c. (payload_at c.octets.now ≤ length c.octets.now) × (length c.octets.now ≤ max_frame) };
}

impl<'a> Caught<'a> {
    /// A copy of so many octets, of which these were captured.
    pub fn new(at: u64, packet: u32, direction: usize, octets: &'a [u8], size: usize) -> Caught<'a>
        requires direction { direction < 2 ^ 16 }
        requires head { payload_at octets.now ≤ length octets.now }
        requires octets { length octets.now ≤ max_frame }
        requires size { size ≤ max_frame }
        ensures { result ≡ record { at = at; packet = packet; direction = direction; copy = copy_at octets.now size } }
    {
        Caught {
            at,
            octets,
            packet,
            size: size as u16,
            direction: direction as u16,
        }
    }

    /// When it was captured, in nanoseconds since 1970.
    pub fn at(&self) -> u64
        ensures { result ≡ self.now.at }
    {
        self.at
    }

    /// Which of the file's packets it is, from 1.
    pub fn packet(&self) -> u32
        ensures { result ≡ self.now.packet }
    {
        self.packet
    }

    /// Its direction, by its number.
    pub fn direction(&self) -> usize
        ensures { result ≡ self.now.direction }
    {
        usize::from(self.direction)
    }

    /// What it says.
    pub fn copy(&self) -> Copy<'a>
        ensures { result ≡ self.now.copy }
    {
        copy_at(self.octets, usize::from(self.size))
    }

    /// The same without its payload.
    pub fn note(&self) -> Noted
        ensures { result ≡ self.now }
    {
        let copy = self.copy();
        // For clauses alone: the note keeps none of these octets.
        let octets = copied(self.octets);
        Noted {
            at: self.at,
            packet: self.packet,
            source: copy.src,
            seq: copy.seq,
            control: copy.vlan.unwrap_or(0),
            size: copy.size,
            length: copy.length as u16,
            direction: self.direction,
            path: copy.path,
            has_vlan: copy.vlan.is_some(),
            is_to_group: copy.is_to_group(),
            octets: Snapshot::of(&octets),
        }
    }
}

/// A source and a number, as one number.
fn key_by(source: Mac, number: u16) -> u64
    ensures { result ≡ key_by source number }
{
    let [a, b, c, d, e, f] = source.octets();
    u64::from_be_bytes([a, b, c, d, e, f, 0, 0]) + u64::from(number)
}

/// The source and the number of a copy, as one number.
pub fn key_of(caught: &Caught<'_>) -> u64
    ensures { result ≡ key_of caught.now }
{
    let copy = caught.copy();
    key_by(copy.src, copy.seq)
}
