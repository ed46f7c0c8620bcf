//! Copies that are read anew from their octets, by the places of what stands in them.
ghost use Rattle.std.specs.Prelude.{◌≡◌, ◌+◌, ◌≤◌, drop, length, take, if◌then◌else◌, None, Some};
ghost use Rattle.hsr_frame.specs.Grammar.{has_vlan, head_len, number_at};
ghost use Rattle.hsr_frame_copies.specs.Contents.{copy_at, payload_at, size_of};

use crate::contents::{Copy, HEAD_LEN, TYPE_AT, VLAN_HEAD_LEN};
use hsr_capture_reader::Packet;
use hsr_frame::{ETHERTYPE_VLAN, Mac, TAG_LEN, u16_at};

/// Where the source stands.
const SOURCE_AT: usize = 6;

/// How many octets a packet had: as many as were captured at least.
pub fn size_of(packet: &Packet<'_>) -> usize
    ensures { result ≡ size_of packet.now }
{
    packet.octets.len().max(packet.length())
}

/// The address at a place.
fn mac_at(octets: &[u8], at: usize) -> Mac
    requires { at + 6 ≤ length octets.now }
    ensures { result ≡ take 6 (drop at octets.now) }
{
    let o = &octets[at..at + 6];
    Mac::new([o[0], o[1], o[2], o[3], o[4], o[5]])
}

/// Where the HSR tag of a tagged frame begins, behind its type.
fn tag_at(octets: &[u8]) -> usize
    requires { 14 ≤ length octets.now }
    ensures { result ≡ head_len octets.now }
{
    if u16_at(octets, TYPE_AT) == ETHERTYPE_VLAN {
        VLAN_HEAD_LEN
    } else {
        HEAD_LEN
    }
}

/// The control information of a VLAN tag, where there is one.
fn vlan_at(octets: &[u8], tag: usize) -> Option<u16>
    requires length { 18 ≤ length octets.now }
    requires tag { tag ≡ head_len octets.now }
    ensures { result ≡ (if has_vlan octets.now then Some (number_at 14 octets.now) else None) }
{
    if tag == VLAN_HEAD_LEN {
        Some(u16_at(octets, HEAD_LEN))
    } else {
        None
    }
}

/// A copy of so many octets, of which these were captured, by its places: nothing is looked at again of what makes it a copy.
pub fn copy_at<'a>(octets: &'a [u8], size: usize) -> Copy<'a>
    requires { payload_at octets.now ≤ length octets.now }
    ensures { result ≡ copy_at octets.now size }
{
    let tag = tag_at(octets);
    let first = u16_at(octets, tag);
    Copy {
        dst: mac_at(octets, 0),
        src: mac_at(octets, SOURCE_AT),
        vlan: vlan_at(octets, tag),
        path: (first / 4096) as u8,
        size: first % 4096,
        seq: u16_at(octets, tag + 2),
        kind: u16_at(octets, tag + 4),
        payload: &octets[tag + TAG_LEN..],
        length: size.saturating_sub(tag + TAG_LEN),
    }
}
