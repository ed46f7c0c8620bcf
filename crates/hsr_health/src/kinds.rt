//! Packets that are no copies, by kind, and frames by VLAN.
ghost use Rattle.std.specs.Prelude.{◌≡◌, ◌+◌, ◌<◌, ◌++◌, ℕ, Bool, filter_map, length, map, option_to_list, reverse, IfOk, IfSome, OnOk};
ghost use Rattle.hsr_health.specs.Counted.{mark_of};
ghost use Rattle.hsr_health.specs.Kinds.{AreMalformed, AreSmall, AreUntagged, AreVlanKeys, AreVlans, HaveInterfaces, IsSmall, is_link_local, local_rank, malformed_by, malformed_of, rank_of, untagged_by, untagged_number, untagged_of, vlan_by, vlan_if, vlan_rank};
ghost use Rattle.hsr_sightings.specs.Read.{TellsEach};
ghost use Rattle.hsr_sightings.specs.Ring as the_ring;

use crate::by_key::{KeyCount, counts_by_key};
use crate::marks::Marks;
use hsr_frame::{FrameFault, Mac, NoMemory};
use hsr_frame_copies::NoCopy;
use hsr_frame_groups::Noted;
use hsr_taps::Stray;
use std::alloc::Global;

/// Packets without a tag, of one EtherType at one interface.
#[derive(Clone, Copy, PartialEq, Eq)]
pub struct UntaggedKind {
    pub interface: usize,
    pub ethertype: u16,
    /// Whether they stay on a link (IEEE 802.1Q clause 8).
    pub is_link_local: bool,
    pub packets: u64,
}

/// Packets that are no frames, of one fault at one interface. The order of ranks is that of the faults' words.
#[derive(Clone, Copy, PartialEq, Eq)]
pub struct MalformedKind {
    pub interface: usize,
    pub rank: u8,
    pub packets: u64,
}

/// Frames with one VLAN tag, or with none.
#[derive(Clone, Copy, PartialEq, Eq)]
pub struct VlanKind {
    pub control: Option<u16>,
    pub frames: u64,
}

/// Whether frames to an address stay on a link: 01-80-C2-00-00-00 to 0F.
pub(crate) fn is_link_local(dst: Mac) -> bool
    ensures { result ≡ is_link_local dst }
{
    matches!(dst.octets(), [0x01, 0x80, 0xC2, 0x00, 0x00, last] if last < 16)
}

/// The rank of a fault's word among all in the order of their letters.
fn rank_of(fault: FrameFault) -> u8
    ensures { result ≡ rank_of fault }
{
    match fault {
        FrameFault::GroupSource => 0,
        FrameFault::Long => 1,
        FrameFault::NestedTag => 2,
        FrameFault::Short => 3,
        FrameFault::ShortTag => 4,
        FrameFault::DoubleVlan => 5,
    }
}

/// 1 of packets that stay on a link, else 0.
fn local_rank(is_link_local: bool) -> u64
    ensures rank { result ≡ local_rank is_link_local }
    ensures small { result < 2 }
{
    if is_link_local { 1 } else { 0 }
}

/// The number of a kind of packets without a tag.
fn untagged_number(interface: usize, ethertype: u16, is_link_local: bool) -> u64
    requires { interface < 64 }
    ensures number { result ≡ untagged_number interface ethertype is_link_local }
    ensures small { ethertype < 65536 }
{
    (interface as u64 * 65536 + u64::from(ethertype)) * 2 + local_rank(is_link_local)
}

/// The number of a packet's kind, if it has no tag.
fn untagged_key(stray: &Stray) -> Option<u64>
    requires { stray.now.interface < 64 }
    ensures key { result ≡ untagged_of stray.now }
    ensures small { IsSmall stray.now.what }
{
    match stray.what {
        NoCopy::Untagged(frame) => {
            let number = untagged_number(stray.interface, frame.kind, is_link_local(frame.dst));
            Some(number)
        }
        NoCopy::Malformed(_) => None,
        NoCopy::Unread => None,
    }
}

/// Puts a number behind others, if there is one.
fn put_key(keys: &mut Vec<u64>, key: Option<u64>) -> Result<(), NoMemory>
    ensures { OnOk result (keys.new.items ≡ keys.old.items ++ option_to_list key) }
{
    if let Some(key) = key {
        keys.push(key)?;
    }
    Ok(())
}

/// The numbers of the kinds of packets without a tag.
fn untagged_keys(alloc: Global, strays: &[Stray]) -> Result<Vec<u64>, NoMemory>
    requires { HaveInterfaces strays.now }
    ensures keys { IfOk result (λ keys. keys.items ≡ filter_map untagged_of strays.now) }
    ensures small { OnOk result (AreSmall strays.now) }
{
    let mut keys = Vec::new(alloc);
    for stray in strays {
        put_key(&mut keys, untagged_key(stray))?;
    }
    Ok(keys)
}

/// A kind by its number.
fn untagged_by(own: KeyCount) -> UntaggedKind
    ensures { result ≡ untagged_by own }
{
    UntaggedKind {
        interface: (own.key / 131_072) as usize,
        ethertype: (own.key / 2 % 65536) as u16,
        is_link_local: own.key % 2 == 1,
        packets: own.count,
    }
}

/// Kinds by their numbers.
fn untagged_kinds(alloc: Global, counts: &[KeyCount]) -> Result<Vec<UntaggedKind>, NoMemory>
    ensures { IfOk result (λ kinds. kinds.items ≡ map untagged_by counts.now) }
{
    let mut kinds = Vec::new(alloc);
    for own in counts {
        kinds.push(untagged_by(*own))?;
    }
    Ok(kinds)
}

/// Packets without a tag, by kind, in order.
pub(crate) fn untagged_of(alloc: Global, strays: &[Stray]) -> Result<Vec<UntaggedKind>, NoMemory>
    requires { HaveInterfaces strays.now }
    ensures { IfOk result (λ kinds. AreUntagged strays.now kinds.items) }
{
    let mut keys = untagged_keys(alloc, strays)?;
    let counts = counts_by_key(alloc, &mut keys)?;
    let kinds = untagged_kinds(alloc, counts.as_slice())?;
    Ok(kinds)
}

/// The number of a packet's kind, if it is no frame.
fn malformed_key(stray: &Stray) -> Option<u64>
    requires { stray.now.interface < 64 }
    ensures { result ≡ malformed_of stray.now }
{
    match stray.what {
        NoCopy::Malformed(fault) => Some(stray.interface as u64 * 8 + u64::from(rank_of(fault))),
        NoCopy::Untagged(_) => None,
        NoCopy::Unread => None,
    }
}

/// The numbers of the kinds of packets that are no frames.
fn malformed_keys(alloc: Global, strays: &[Stray]) -> Result<Vec<u64>, NoMemory>
    requires { HaveInterfaces strays.now }
    ensures { IfOk result (λ keys. keys.items ≡ filter_map malformed_of strays.now) }
{
    let mut keys = Vec::new(alloc);
    for stray in strays {
        put_key(&mut keys, malformed_key(stray))?;
    }
    Ok(keys)
}

/// A kind by its number.
fn malformed_by(own: KeyCount) -> MalformedKind
    ensures { result ≡ malformed_by own }
{
    MalformedKind {
        interface: (own.key / 8) as usize,
        rank: (own.key % 8) as u8,
        packets: own.count,
    }
}

/// Kinds by their numbers.
fn malformed_kinds(alloc: Global, counts: &[KeyCount]) -> Result<Vec<MalformedKind>, NoMemory>
    ensures { IfOk result (λ kinds. kinds.items ≡ map malformed_by counts.now) }
{
    let mut kinds = Vec::new(alloc);
    for own in counts {
        kinds.push(malformed_by(*own))?;
    }
    Ok(kinds)
}

/// Packets that are no frames, by kind, in order.
pub(crate) fn malformed_of(alloc: Global, strays: &[Stray]) -> Result<Vec<MalformedKind>, NoMemory>
    requires { HaveInterfaces strays.now }
    ensures { IfOk result (λ kinds. AreMalformed strays.now kinds.items) }
{
    let mut keys = malformed_keys(alloc, strays)?;
    let counts = counts_by_key(alloc, &mut keys)?;
    let kinds = malformed_kinds(alloc, counts.as_slice())?;
    Ok(kinds)
}

/// One more than a number.
fn one_above(control: u16) -> u64
    ensures exact { result ≡ control + 1 }
    ensures small { result < 65537 }
{
    u64::from(control) + 1
}

/// The number of a VLAN tag.
fn vlan_rank(control: Option<u16>) -> u64
    ensures rank { result ≡ vlan_rank control }
    ensures small { result < 65537 }
{
    match control {
        None => 0,
        Some(control) => one_above(control),
    }
}

/// The number of a copy's VLAN tag, if it begins a frame.
fn vlan_key(caught: &Noted, begins: bool) -> Option<u64>
    ensures key { result ≡ vlan_if begins caught.now }
    ensures small { IfSome result (λ n. n < 65537) }
{
    if begins {
        Some(vlan_rank(caught.vlan()))
    } else {
        None
    }
}

/// The numbers of the VLAN tags of all frames.
fn vlan_keys(alloc: Global, copies: &[Noted], marks: &[Marks]) -> Result<Vec<u64>, NoMemory>
    requires { (is_by_lane : ℕ → Bool) × (ring : the_ring.Ring) × TellsEach (mark_of is_by_lane ring) copies.now marks.now }
    ensures { IfOk result (λ keys. AreVlanKeys copies.now (length copies.now) keys.items) }
{
    let mut keys = Vec::new(alloc);
    for i in 0..copies.len() {
        put_key(&mut keys, vlan_key(&copies[i], marks[i].begins()))?;
    }
    Ok(keys)
}

/// A VLAN tag by its number.
fn vlan_by(own: KeyCount) -> VlanKind
    ensures { result ≡ vlan_by own }
{
    let control = if own.key == 0 {
        None
    } else {
        Some(((own.key - 1) % 65536) as u16)
    };
    VlanKind {
        control,
        frames: own.count,
    }
}

/// VLAN tags by their numbers.
fn vlan_kinds(alloc: Global, counts: &[KeyCount]) -> Result<Vec<VlanKind>, NoMemory>
    ensures { IfOk result (λ kinds. kinds.items ≡ map vlan_by counts.now) }
{
    let mut kinds = Vec::new(alloc);
    for own in counts {
        kinds.push(vlan_by(*own))?;
    }
    Ok(kinds)
}

/// Frames by their VLAN tags, those without one first.
pub(crate) fn vlans_of(
    alloc: Global,
    copies: &[Noted],
    marks: &[Marks],
) -> Result<Vec<VlanKind>, NoMemory>
    requires { (is_by_lane : ℕ → Bool) × (ring : the_ring.Ring) × TellsEach (mark_of is_by_lane ring) copies.now marks.now }
    ensures { IfOk result (λ kinds. AreVlans (reverse copies.now) kinds.items) }
{
    let mut keys = vlan_keys(alloc, copies, marks)?;
    let counts = counts_by_key(alloc, &mut keys)?;
    let kinds = vlan_kinds(alloc, counts.as_slice())?;
    Ok(kinds)
}
