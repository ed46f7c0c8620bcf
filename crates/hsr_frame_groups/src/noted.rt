//! Copies without their payloads.
ghost use Rattle.std.specs.Prelude.{◌≡◌, reverse, IfOk, Some, None, if◌then◌else◌};
ghost use Rattle.hsr_frame.specs.Address.{is_group};

use crate::caught::Caught;
use arrayvec::ArrayVec;
use hsr_capture_reader::give_back;
use hsr_frame::{MAX_FRAME, Mac, NoMemory};
use std::alloc::Global;
use std::marker::Model;
use std::snapshot::Snapshot;

/// A copy that was captured, without the octets of its payload, as 32 octets: once it is known which copies are of one frame, nobody
/// reads payloads, and a large capture may let its packets go. Clauses still see what it says, payload and all.
#[derive(Drop)]
pub struct Noted {
    pub(crate) at: u64,
    pub(crate) packet: u32,
    pub(crate) source: Mac,
    pub(crate) seq: u16,
    /// The control information of its VLAN tag, if it has one.
    pub(crate) control: u16,
    pub(crate) size: u16,
    pub(crate) length: u16,
    pub(crate) direction: u16,
    pub(crate) path: u8,
    pub(crate) has_vlan: bool,
    pub(crate) is_to_group: bool,
    /// Its octets, which only clauses read: they take no room.
    pub(crate) octets: Snapshot<ArrayVec<u8, MAX_FRAME>>,
}

impl Model for Noted {
    ghost use Rattle.std.specs.Prelude.{◌≡◌};
    ghost use Rattle.hsr_frame.specs.Address.{is_group};
    ghost use Rattle.hsr_frame_copies.specs.Contents.{copy_at};
    ghost use Rattle.hsr_frame_groups.specs.Frames.{CaughtFields};
    ghost use Rattle.hsr_frame_groups.specs.Noted.{long_copy, vlan_if};

    ghost Value = { CaughtFields };

    ghost view = { λ n. record { at = n.at; packet = n.packet; direction = n.direction; copy = long_copy n.octets.value.items n.length } };

    ghost invariant = { λ n. (n.source ≡ (copy_at n.octets.value.items 0).src) × (n.seq ≡ (copy_at n.octets.value.items 0).seq)
        × (vlan_if n.has_vlan n.control ≡ (copy_at n.octets.value.items 0).vlan) × (n.size ≡ (copy_at n.octets.value.items 0).size)
        × (n.path ≡ (copy_at n.octets.value.items 0).path) × (n.is_to_group ≡ is_group (copy_at n.octets.value.items 0).dst) };
}

ghost use Rattle.hsr_frame_groups.specs.Noted.{vlan_if};

/// The control information of a VLAN tag, if there is one.
fn vlan_if(has_vlan: bool, control: u16) -> Option<u16>
    ensures { result ≡ vlan_if has_vlan control }
{
    if has_vlan { Some(control) } else { None }
}

impl Noted {
    /// When it was captured, in nanoseconds since 1970.
    pub fn at(&self) -> u64
        ensures { result ≡ self.now.at }
    {
        self.at
    }

    /// Which of the file's packets it is, from 1.
    pub fn packet(&self) -> u32
        ensures { result ≡ self.now.packet }
    {
        self.packet
    }

    /// Its direction, by its number.
    pub fn direction(&self) -> usize
        ensures { result ≡ self.now.direction }
    {
        usize::from(self.direction)
    }

    /// The address that sent its frame.
    pub fn source(&self) -> Mac
        ensures { result ≡ self.now.copy.src }
    {
        self.source
    }

    /// The number of its frame.
    pub fn seq(&self) -> u16
        ensures { result ≡ self.now.copy.seq }
    {
        self.seq
    }

    /// The control information of its VLAN tag, if it has one (IEEE 802.1Q clause 9).
    pub fn vlan(&self) -> Option<u16>
        ensures { result ≡ self.now.copy.vlan }
    {
        vlan_if(self.has_vlan, self.control)
    }

    /// The size in its tag.
    pub fn size(&self) -> u16
        ensures { result ≡ self.now.copy.size }
    {
        self.size
    }

    /// How many octets its payload has.
    pub fn length(&self) -> usize
        ensures { result ≡ self.now.copy.length }
    {
        usize::from(self.length)
    }

    /// The path in its tag.
    pub fn path(&self) -> u8
        ensures { result ≡ self.now.copy.path }
    {
        self.path
    }

    /// Whether it goes to a group.
    pub fn is_to_group(&self) -> bool
        ensures { result ≡ is_group self.now.copy.dst }
    {
        self.is_to_group
    }
}

/// Copies without their payloads, the last first, so that the ones go as the others come: a large capture has room for one of both lists.
/// The room of those that come is taken at once, as it is used page by page.
fn noted_back(alloc: Global, copies: Vec<Caught<'_>>) -> Result<Vec<Noted>, NoMemory>
    ensures { IfOk result (λ noted. reverse noted.items ≡ copies.entry.items) }
{
    let mut left = copies;
    let mut noted = Vec::with_capacity(alloc, left.len())?;
    while let Some(caught) = left.pop() {
        noted.push(caught.note())?;
        give_back(&mut left);
    }
    Ok(noted)
}

/// The same copies without their payloads. `NoMemory` where room is refused.
pub fn all_noted(alloc: Global, copies: Vec<Caught<'_>>) -> Result<Vec<Noted>, NoMemory>
    ensures { IfOk result (λ noted. noted.items ≡ copies.entry.items) }
{
    let mut noted = noted_back(alloc, copies)?;
    noted.reverse();
    Ok(noted)
}
