//! The payload of a supervision frame.
//!
//! A payload, with offsets in octets (IEC 62439-3 clause 5.7; the sizes are this profile's). Without a RedBox the zeros
//! begin at 12:
//!
//! ```text
//! offset  octets
//!  0      2   path (upper 4 bits), version (lower 12 bits)
//!  2      2   supervision sequence number, the high octet first
//!  4      1   TLV1 type: 20 or 21 (PRP), 23 (HSR)
//!  5      1   TLV1 length: 6
//!  6      6   address of the node that the frame is about
//! 12      1   TLV type: 30, a RedBox
//! 13      1   TLV length: 6
//! 14      6   address of the RedBox
//! 20      26  zeros up to 46 octets: the first two are the end TLV, of type 0
//! ```
ghost use Rattle.std.specs.Prelude.{[], ◌∷◌, ◌≡◌, ◌==◌, ◌<◌, ◌≤◌, length, take, drop, if◌then◌else◌, IfErr, IfNone, IfOk, IfSome};
ghost use Rattle.hsr_supervision.specs.Payload.{Fields, IsSaid, kind_code, kind_of, lacks_address, name_len, onto, read_of, redbox_among, redbox_type, result_map, spelling, tlvs_past};

use arrayvec::ArrayVec;
use hsr_frame::{Mac, put, put_u16, u16_at};
use std::marker::Model;
use thiserror::Error;

/// Why octets are no supervision payload (IEC 62439-3 clause 5.7).
#[derive(Clone, Copy, Debug, PartialEq, Eq, Error)]
pub enum SupFault {
    #[error("a TLV is cut short")]
    Truncated,
    #[error("the type of TLV1 is that of no kind of node")]
    FirstKind,
    #[error("the length of TLV1 is not that of an address")]
    FirstLength,
    #[error("the length of a RedBox TLV is not that of an address")]
    RedBoxLength,
}

/// The kind of node that a payload is about, by the type of TLV1 (IEC 62439-3 clause 5.7).
#[derive(Clone, Copy, Default, PartialEq, Eq)]
pub enum SupKind {
    /// A PRP node that discards duplicates (type 20).
    PrpDiscard,
    /// A PRP node that accepts duplicates (type 21).
    PrpAccept,
    /// An HSR node (type 23).
    #[default]
    Hsr,
}

/// What a supervision payload says (IEC 62439-3 clause 5.7): the path is below 16 and the version below
/// 4096, `seq` counts the sender's supervision frames, and `redbox` sends for the node `about`.
#[derive(Clone, Copy, PartialEq, Eq)]
pub struct Supervision {
    pub path: u8,
    pub version: u16,
    pub seq: u16,
    pub kind: SupKind,
    pub about: Mac,
    pub redbox: Option<Mac>,
}

impl Model for Supervision {
    ghost use Rattle.std.specs.Prelude.{◌<◌};
    ghost use Rattle.hsr_supervision.specs.Payload.{Fields};

    ghost Value = { Fields };

    ghost view = { λ s. record { path = s.path; version = s.version; seq = s.seq; kind = s.kind; about = s.about; redbox = s.redbox } };

    ghost invariant = { λ s. (s.path < 16) × (s.version < 4096) };

    ghost inverse = { λ v. record { path = v.path; version = v.version; seq = v.seq; kind = v.kind; about = v.about; redbox = v.redbox } };
}

/// The kind that a type of TLV1 names.
fn kind_of(code: u8) -> Option<SupKind>
    ensures { result ≡ kind_of code }
{
    match code {
        20 => Some(SupKind::PrpDiscard),
        21 => Some(SupKind::PrpAccept),
        23 => Some(SupKind::Hsr),
        _ => None,
    }
}

/// The type of TLV1 that names a kind.
fn code_of(kind: SupKind) -> u8
    ensures { result ≡ kind_code kind }
{
    match kind {
        SupKind::PrpDiscard => 20,
        SupKind::PrpAccept => 21,
        SupKind::Hsr => 23,
    }
}

/// The type of the end TLV.
const END: u8 = 0;

/// The type of a RedBox TLV.
const REDBOX: u8 = 30;

/// The length of the value of a TLV that names a node: of an address.
const NAME_LEN: u8 = 6;

/// What a payload has up to the end of TLV1: path and version, number, and TLV1 with an address.
const FIRST_LEN: usize = 12;

/// The shortest payload (IEC 62439-3 clause 5.7).
pub const MIN_PAYLOAD: usize = 46;

// Both numbers of zeros are constants, since an array of zeros needs its length as one.
/// The zeros behind TLV1.
const ZEROS: usize = MIN_PAYLOAD - FIRST_LEN;

/// The zeros behind a RedBox TLV, which has 8 octets.
const ZEROS_BEHIND_REDBOX: usize = ZEROS - 8;

/// The address in the first six octets.
fn mac_at(o: &[u8]) -> Mac
    requires { 6 ≤ length o.now }
    ensures { result ≡ take 6 o.now }
{
    Mac::new([o[0], o[1], o[2], o[3], o[4], o[5]])
}

/// What stands after the first `n` octets.
fn after(octets: &[u8], n: usize) -> &[u8]
    requires { n ≤ length octets.now }
    ensures { result.now ≡ drop n octets.now }
{
    &octets[n..]
}

/// Whether a TLV of this type and length should have an address as its value, and has none.
fn is_wrong_redbox(kind: u8, len: u8) -> bool
    ensures { result ≡ lacks_address kind len }
{
    kind == REDBOX && len != NAME_LEN
}

/// A TLV, and the octets behind it.
#[derive(Clone, Copy)]
struct FirstTlv<'a> {
    kind: u8,
    value: &'a [u8],
    behind: &'a [u8],
}

/// The first TLV of octets, none at their end.
#[tactic(auto, using(crate::proofs::Tlvs::first_decides, crate::proofs::Tlvs::is_short, crate::proofs::Tlvs::stands_first))]
fn first_tlv(octets: &[u8]) -> Result<Option<FirstTlv<'_>>, SupFault>
    ensures fault { IfErr result (λ e. tlvs_past 0 octets.now ≡ Err e) }
    ensures end { IfOk result (λ o. IfNone o (tlvs_past 0 octets.now ≡ Ok [])) }
    ensures tlv { IfOk result (λ o. IfSome o
        (λ t. tlvs_past 0 octets.now ≡ onto t.kind t.value.now (tlvs_past 0 t.behind.now))) }
    ensures redbox { IfOk result (λ o. IfSome o
        (λ t. t.kind ≡ redbox_type → length t.value.now ≡ name_len)) }
    ensures shorter { IfOk result (λ o. IfSome o (λ t. length t.behind.now < length octets.now)) }
{
    let (kind, len) = match octets {
        [] => return Ok(None),
        // One octet is no TLV, even a zero: a TLV has a type and a length.
        [_] => return Err(SupFault::Truncated),
        [kind, len, ..] => (*kind, *len),
    };
    // The length of the end TLV isn't looked at, nor is what follows it.
    if kind == END {
        return Ok(None);
    }
    // The wrong length of a RedBox is told before a value that is cut off (RULES, Supervision).
    if is_wrong_redbox(kind, len) {
        return Err(SupFault::RedBoxLength);
    }
    let rest = after(octets, 2);
    let len = usize::from(len);
    if rest.len() < len {
        return Err(SupFault::Truncated);
    }
    let (value, behind) = rest.split_at(len);
    Ok(Some(FirstTlv {
        kind,
        value,
        behind,
    }))
}

/// The address that a RedBox TLV has, if it is one.
fn redbox_of(tlv: FirstTlv<'_>) -> Option<Mac>
    requires { tlv.kind ≡ redbox_type → length tlv.value.now ≡ name_len }
    ensures { result ≡ (if tlv.entry.kind == redbox_type then Some tlv.entry.value.now else None) }
{
    if tlv.kind == REDBOX {
        Some(mac_at(tlv.value))
    } else {
        None
    }
}

/// The address that the first RedBox TLV has.
#[tactic(auto, using(crate::proofs::Tlvs::onward))]
fn redbox_in(octets: &[u8]) -> Result<Option<Mac>, SupFault>
    ensures { result ≡ result_map redbox_among (tlvs_past 0 octets.now) }
{
    let mut found = None;
    let mut left = octets;
    while let Some(tlv) = first_tlv(left)? {
        // The first RedBox counts. All TLVs are read all the same, since each may have the first fault.
        found = found.or(redbox_of(tlv));
        left = tlv.behind;
    }
    Ok(found)
}

/// What octets say, or the first of the faults.
#[tactic(auto, using(crate::proofs::Tlvs::fault_before))]
fn read_said(octets: &[u8]) -> Result<Supervision, SupFault>
    ensures { result ≡ read_of octets.now }
{
    // Type and length of TLV1 are looked at before its value, so only these have to be there yet.
    if octets.len() < 6 {
        return Err(SupFault::Truncated);
    }
    let kind = kind_of(octets[4]).ok_or(SupFault::FirstKind)?;
    if octets[5] != NAME_LEN {
        return Err(SupFault::FirstLength);
    }
    if octets.len() < FIRST_LEN {
        return Err(SupFault::Truncated);
    }
    let first = u16_at(octets, 0);
    let redbox = redbox_in(after(octets, FIRST_LEN))?;
    Ok(Supervision {
        path: (first / 4096) as u8,
        version: first % 4096,
        seq: u16_at(octets, 2),
        kind,
        about: mac_at(&octets[6..]),
        redbox,
    })
}

/// The octets of a payload, with zeros up to `MIN_PAYLOAD`.
fn octets_of(said: &Supervision) -> ArrayVec<u8, MIN_PAYLOAD>
    ensures octets { result.items ≡ spelling said.now }
    ensures well_formed { IsSaid said.now }
{
    let mut out = ArrayVec::new();
    // Both fit: by the type's invariant path is below 16 and version below 4096.
    put_u16(&mut out, u16::from(said.path) * 4096 + said.version);
    put_u16(&mut out, said.seq);
    put(&mut out, &[code_of(said.kind), NAME_LEN]);
    put(&mut out, &said.about.octets());
    if let Some(mac) = said.redbox {
        put(&mut out, &[REDBOX, NAME_LEN]);
        put(&mut out, &mac.octets());
        put(&mut out, &[0; ZEROS_BEHIND_REDBOX]);
    } else {
        put(&mut out, &[0; ZEROS]);
    }
    out
}

impl Supervision {
    /// What octets say, or the first of the faults: Truncated where less than TLV1's type and length is
    /// there, FirstKind, FirstLength, Truncated in TLV1's value, and then TLV by TLV RedBoxLength and
    /// Truncated. The first RedBox TLV gives the RedBox, and others are stepped over. What stands behind
    /// the end TLV is not looked at, and path and version are kept and not checked.
    #[tactic(auto, using(crate::proofs::Again::again))]
    pub fn read(octets: &[u8]) -> Result<Supervision, SupFault>
        ensures exact { result ≡ read_of octets.now }
        // What is spelled so is read.
        ensures only { (s : Fields) → IsSaid s → octets.now ≡ spelling s → result ≡ Ok s }
    {
        read_said(octets)
    }

    /// The octets of the payload, with zeros up to `MIN_PAYLOAD`: the first two of them are the end TLV.
    #[tactic(auto, using(crate::proofs::Again::again))]
    pub fn write(&self) -> ArrayVec<u8, MIN_PAYLOAD>
        ensures octets { result.items ≡ spelling self.now }
        ensures well_formed { IsSaid self.now }
        // What is written is read back.
        ensures again { read_of result.items ≡ Ok self.now }
    {
        octets_of(self)
    }
}
