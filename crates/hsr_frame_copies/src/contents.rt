//! What a packet is: a copy of a tagged frame, or none.
ghost use Rattle.std.specs.Prelude.{◌≡◌, ◌-◌, ◌<◌, ◌≤◌, ◌++◌, drop, length, replicate, IfOk};
ghost use Rattle.hsr_frame.specs.Address.{is_group};
ghost use Rattle.hsr_frame.specs.Egress.{is_supervision};
ghost use Rattle.hsr_frame.specs.Layout.{max_frame};
ghost use Rattle.hsr_frame_copies.specs.Contents.{IsAtPlaces, copy_in, copy_of, filled, needed, tagged_head};

use arrayvec::ArrayVec;
use hsr_capture_reader::Packet;
use hsr_frame::{
    ETHERTYPE_HSR, ETHERTYPE_VLAN, FrameFault, MAX_FRAME, Mac, TAG_LEN, is_supervision, put, u16_at,
};
use hsr_tag::{EitherView, SeenView, look_at};
use std::marker::Model;

/// A copy of a frame with an HSR tag (IEC 62439-3 clause 5.6), with what was captured of its payload.
#[derive(Drop)]
pub struct Copy<'a> {
    pub dst: Mac,
    pub src: Mac,
    pub vlan: Option<u16>,
    pub path: u8,
    pub size: u16,
    pub seq: u16,
    /// The EtherType.
    pub kind: u16,
    /// The octets of the payload that were captured.
    pub payload: &'a [u8],
    /// How many octets the payload has.
    pub length: usize,
}

impl<'a> Model for Copy<'a> {
    ghost use Rattle.hsr_frame_copies.specs.Contents.{CopyFields};

    ghost Value = { CopyFields };

    ghost view = { λ c. record { dst = c.dst; src = c.src; vlan = c.vlan; path = c.path; size = c.size; seq = c.seq; kind = c.kind; payload = c.payload.now; length = c.length } };
}

/// A frame with no HSR tag: its addresses and its type.
#[derive(Clone, Copy, PartialEq, Eq)]
pub struct Untagged {
    pub dst: Mac,
    pub src: Mac,
    /// The EtherType.
    pub kind: u16,
}

/// What a packet is that is no copy of a tagged frame.
#[derive(Clone, Copy, PartialEq, Eq)]
pub enum NoCopy {
    /// So few of its octets were captured that its type or its tag isn't whole.
    Unread,
    /// It is no frame.
    Malformed(FrameFault),
    Untagged(Untagged),
}

/// What stands up to the type of a frame, with it.
pub(crate) const HEAD_LEN: usize = 14;

/// The same of a frame with a VLAN tag.
pub(crate) const VLAN_HEAD_LEN: usize = 18;

/// Where the first type stands.
pub(crate) const TYPE_AT: usize = 12;

/// How many octets must have been captured so that a frame's type and its tag, if it has one, can be read.
fn needed(octets: &[u8]) -> usize
    ensures { result ≡ needed octets.now }
{
    if octets.len() < HEAD_LEN {
        return HEAD_LEN;
    }
    let head = if u16_at(octets, TYPE_AT) == ETHERTYPE_VLAN {
        VLAN_HEAD_LEN
    } else {
        HEAD_LEN
    };
    if octets.len() < head {
        return head;
    }
    if u16_at(octets, head - 2) == ETHERTYPE_HSR {
        head + TAG_LEN
    } else {
        head
    }
}

/// Octets, with zeros behind them up to a length.
#[tactic(auto, using(crate::proofs::Zeros::one_more_zero))]
fn with_zeros(octets: &[u8], len: usize) -> ArrayVec<u8, MAX_FRAME>
    requires cut { length octets.now ≤ len }
    requires room { len ≤ max_frame }
    ensures { result.items ≡ octets.now ++ replicate (len - length octets.now) 0 }
{
    let mut filled = ArrayVec::new();
    put(&mut filled, octets);
    for _ in octets.len()..len {
        put(&mut filled, b"\0");
    }
    filled
}

/// A packet's octets, with zeros for those that weren't captured.
fn filled(packet: &Packet<'_>) -> ArrayVec<u8, MAX_FRAME>
    requires cut { length packet.now.octets < packet.now.length }
    requires room { packet.now.length ≤ max_frame }
    ensures { result.items ≡ filled packet.now }
{
    with_zeros(packet.octets, packet.length())
}

/// What stands up to the payload of a tagged frame.
fn tagged_head(vlan: Option<u16>) -> usize
    ensures { result ≡ tagged_head vlan }
{
    match vlan {
        Some(_) => VLAN_HEAD_LEN + TAG_LEN,
        None => HEAD_LEN + TAG_LEN,
    }
}

/// What stands behind the first octets, nothing where there are fewer.
fn behind(octets: &[u8], len: usize) -> &[u8]
    ensures { result.now ≡ drop len octets.now }
{
    &octets[len.min(octets.len())..]
}

/// What octets are that were seen so: a copy, or none.
fn copy_in<'a>(octets: &'a [u8], seen: Result<SeenView<'_>, FrameFault>) -> Result<Copy<'a>, NoCopy>
    ensures { result ≡ copy_in octets.now seen.entry }
{
    let seen = match seen {
        Ok(seen) => seen,
        Err(fault) => return Err(NoCopy::Malformed(fault)),
    };
    match seen.frame {
        EitherView::Plain(frame) => Err(NoCopy::Untagged(Untagged {
            dst: frame.dst,
            src: frame.src,
            kind: frame.kind,
        })),
        EitherView::Tagged(frame) => Ok(Copy {
            dst: frame.dst,
            src: frame.src,
            vlan: frame.vlan,
            path: frame.path,
            size: frame.size,
            seq: frame.seq,
            kind: frame.kind,
            payload: behind(octets, tagged_head(frame.vlan)),
            length: frame.payload.as_slice().len(),
        }),
    }
}

/// What a packet is. Octets that weren't captured count as zeros where its size is looked at; where its type or its tag isn't whole,
/// it is `Unread`.
pub fn copy_of<'a>(packet: &Packet<'a>) -> Result<Copy<'a>, NoCopy>
    ensures found { result ≡ copy_of packet.now }
    ensures places { IfOk result (λ copy. IsAtPlaces packet.now copy) }
{
    copy_by(packet)
}

/// What a packet is.
#[tactic(auto, using(crate::proofs::Zeros::too_long))]
fn copy_by<'a>(packet: &Packet<'a>) -> Result<Copy<'a>, NoCopy>
    ensures { result ≡ copy_of packet.now }
{
    if !packet.is_cut() {
        return copy_in(packet.octets, look_at(packet.octets));
    }
    if packet.octets.len() < needed(packet.octets) {
        return Err(NoCopy::Unread);
    }
    if packet.length() > MAX_FRAME {
        return Err(NoCopy::Malformed(FrameFault::Long));
    }
    let filled = filled(packet);
    copy_in(packet.octets, look_at(filled.as_slice()))
}

impl<'a> Copy<'a> {
    /// Whether it goes to a group.
    pub fn is_to_group(&self) -> bool
        ensures { result ≡ is_group self.now.dst }
    {
        self.dst.is_group()
    }

    /// Whether it is a supervision frame (IEC 62439-3 clause 5.7).
    pub fn is_supervision(&self) -> bool
        ensures { result ≡ is_supervision self.now.dst self.now.kind }
    {
        is_supervision(self.dst, self.kind)
    }
}
