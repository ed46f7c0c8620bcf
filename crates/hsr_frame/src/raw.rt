//! Frames before any HSR tag is looked for.
ghost use Rattle.std.specs.Prelude.{◌≡◌, ◌≢◌, ◌+◌, ◌*◌, ◌<◌, ◌≤◌, ◌++◌, List, length, take, drop, IfOk, IfErr, MatchResult, Ok, Err, IsOkAnd, Some, None};
ghost use Rattle.hsr_frame.specs.Grammar.{Fields, spelling, IsRaw, fields_of, raw_fault, raw_of};

use crate::fault::FrameFault;
use crate::layout::{
    CONTROL_AT, ETHERTYPE_VLAN, HEAD_LEN, MAX_FRAME, MAX_REST, SOURCE_AT, TYPE_AT, VLAN_HEAD_LEN,
};
use crate::mac::Mac;
use crate::octets::{copied, put, put_head, put_u16, u16_at};
use arrayvec::ArrayVec;
use std::marker::Model;

/// A frame, before any HSR tag is looked for: what stands after the type is its rest. No group sends it,
/// and its type is not that of a VLAN tag (IEEE 802.3 clause 3, IEEE 802.1Q clause 9).
#[derive(Drop)]
pub struct Raw {
    pub dst: Mac,
    pub src: Mac,
    pub vlan: Option<u16>,
    /// The EtherType.
    pub kind: u16,
    pub rest: ArrayVec<u8, MAX_REST>,
}

impl Model for Raw {
    ghost use Rattle.std.specs.Prelude.{◌≢◌};
    ghost use Rattle.hsr_frame.specs.Address.{IsGroup};
    ghost use Rattle.hsr_frame.specs.Grammar.{Fields};
    ghost use Rattle.hsr_frame.specs.Layout.{ethertype_vlan};

    ghost Value = { Fields };

    ghost view = { λ r. record { dst = r.dst; src = r.src; vlan = r.vlan; kind = r.kind; rest = r.rest.items } };

    ghost invariant = { λ r. (¬ IsGroup r.src) × (r.kind ≢ ethertype_vlan) };
}

/// A frame, before any HSR tag is looked for, whose rest stands in the octets that were read. No group sends it,
/// and its type is not that of a VLAN tag (IEEE 802.3 clause 3, IEEE 802.1Q clause 9).
#[derive(Drop)]
pub struct Head<'a> {
    pub dst: Mac,
    pub src: Mac,
    pub vlan: Option<u16>,
    /// The EtherType.
    pub kind: u16,
    pub rest: &'a [u8],
}

impl<'a> Model for Head<'a> {
    ghost use Rattle.std.specs.Prelude.{◌≢◌, ◌≤◌, length};
    ghost use Rattle.hsr_frame.specs.Address.{IsGroup};
    ghost use Rattle.hsr_frame.specs.Grammar.{Fields};
    ghost use Rattle.hsr_frame.specs.Layout.{ethertype_vlan, max_rest};

    ghost Value = { Fields };

    ghost view = { λ h. record { dst = h.dst; src = h.src; vlan = h.vlan; kind = h.kind; rest = h.rest.now } };

    ghost invariant = { λ h. (¬ IsGroup h.src) × (h.kind ≢ ethertype_vlan) × (length h.rest.now ≤ max_rest) };
}

/// The address at a place.
fn mac_at(octets: &[u8], at: usize) -> Mac
    requires { at + 5 < length octets.now }
    ensures { result ≡ take 6 (drop at octets.now) }
{
    let o = &octets[at..at + 6];
    Mac::new([o[0], o[1], o[2], o[3], o[4], o[5]])
}

/// The frame by its places, or the first of the faults.
/// Faults are tried in the order of the rules (RULES, Frames): short, long, a group's source, a second VLAN tag.
fn read_head(octets: &[u8]) -> Result<Head<'_>, FrameFault>
    ensures found { IfOk result (λ r. (raw_fault octets.now ≡ None) × (r ≡ fields_of octets.now)) }
    ensures fault { IfErr result (λ e. raw_fault octets.now ≡ Some e) }
{
    if octets.len() < HEAD_LEN {
        return Err(FrameFault::Short);
    }
    let first = u16_at(octets, TYPE_AT);
    let has_vlan = first == ETHERTYPE_VLAN;
    if has_vlan && octets.len() < VLAN_HEAD_LEN {
        return Err(FrameFault::Short);
    }
    let head = if has_vlan { VLAN_HEAD_LEN } else { HEAD_LEN };
    // Nothing is cut off as padding: padding that came belongs to the payload (RULES, Frames).
    let rest = &octets[head..];
    if rest.len() > MAX_REST {
        return Err(FrameFault::Long);
    }
    let src = mac_at(octets, SOURCE_AT);
    if src.is_group() {
        return Err(FrameFault::GroupSource);
    }
    let vlan = if has_vlan {
        Some(u16_at(octets, CONTROL_AT))
    } else {
        None
    };
    // The last type stands just before the rest, with a VLAN tag and without.
    let ethertype = u16_at(octets, head - 2);
    if ethertype == ETHERTYPE_VLAN {
        return Err(FrameFault::DoubleVlan);
    }
    Ok(Head {
        dst: mac_at(octets, 0),
        src,
        vlan,
        kind: ethertype,
        rest,
    })
}

impl<'a> Head<'a> {
    /// The frame that the octets spell, or the first of the faults: too short, too long, from a group,
    /// with two VLAN tags.
    // Inline, since a call would pass the frame through memory.
    #[inline(always)]
    pub fn parse(octets: &'a [u8]) -> Result<Head<'a>, FrameFault>
        ensures exact { result ≡ raw_of octets.now }
        // What is read is spelled so.
        ensures found { IfOk result (λ r. IsRaw r × (octets.now ≡ spelling r)) }
        // What is spelled so is read.
        ensures only { (f : Fields) → IsRaw f → octets.now ≡ spelling f → result ≡ Ok f }
    {
        read_head(octets)
    }
}

impl Raw {
    /// The frame that the octets spell, with a copy of its rest, or the first of the faults: too short, too long, from a
    /// group, with two VLAN tags.
    pub fn parse(octets: &[u8]) -> Result<Raw, FrameFault>
        ensures exact { result ≡ raw_of octets.now }
        // What is read is spelled so.
        ensures found { IfOk result (λ r. IsRaw r × (octets.now ≡ spelling r)) }
        // What is spelled so is read.
        ensures only { (f : Fields) → IsRaw f → octets.now ≡ spelling f → result ≡ Ok f }
    {
        let head = Head::parse(octets)?;
        Ok(Raw {
            dst: head.dst,
            src: head.src,
            vlan: head.vlan,
            kind: head.kind,
            // The copy fits: a `Head` has `MAX_REST` octets behind its type at most.
            rest: copied(head.rest),
        })
    }

    /// The octets of the frame: `MAX_FRAME` at most.
    pub fn write(&self) -> ArrayVec<u8, MAX_FRAME>
        ensures octets { result.items ≡ spelling self.now }
        ensures well_formed { IsRaw self.now }
    {
        let mut out = ArrayVec::new();
        put_head(&mut out, &self.dst, &self.src, self.vlan);
        put_u16(&mut out, self.kind);
        put(&mut out, self.rest.as_slice());
        out
    }
}
