//! Frames whose payload stands where it was read.
ghost use Rattle.std.specs.Prelude.{◌≡◌, ◌≤◌, ◌<◌, ◌++◌, length};
ghost use Rattle.arrayvec.specs.ArrayVec.{array_vec_len};
ghost use Rattle.hsr_frame.specs.Grammar.{spelling};
ghost use Rattle.hsr_tag.specs.Seen.{Spells};
ghost use Rattle.hsr_tag.specs.Spelled.{longest_head};
ghost use Rattle.hsr_tag.specs.Tag.{IsPlain, IsTagged, tag_of, tagged_spelling, untag_of};

use crate::frame::{Frame, Tagged, put_tag};
use crate::payload::Payload;
use crate::seen::Seen;
use crate::spelled::Spelled;
use arrayvec::ArrayVec;
use hsr_frame::{Mac, TAG_LEN, copied, put_head, put_u16};
use std::marker::Model;

/// How many octets stand in front of an HSR tag: two addresses, and a VLAN tag if there is one.
const ADDRESSES: usize = 12;

const ADDRESSES_AND_VLAN: usize = 16;

/// A frame with no HSR tag, with a payload of at most `MAX_PAYLOAD` octets where it stands. No group sends it, and its
/// type is that of no VLAN or HSR tag (IEEE 802.3 clause 3).
#[derive(Drop)]
pub struct FrameView<'a> {
    pub dst: Mac,
    pub src: Mac,
    pub vlan: Option<u16>,
    /// The EtherType.
    pub kind: u16,
    pub payload: Payload<'a>,
}

impl<'a> Model for FrameView<'a> {
    ghost use Rattle.std.specs.Prelude.{◌≢◌, ◌≤◌, length};
    ghost use Rattle.hsr_frame.specs.Address.{IsGroup};
    ghost use Rattle.hsr_frame.specs.Grammar.{Fields};
    ghost use Rattle.hsr_frame.specs.Layout.{ethertype_hsr, ethertype_vlan, max_payload};

    ghost Value = { Fields };

    ghost view = { λ r. record { dst = r.dst; src = r.src; vlan = r.vlan; kind = r.kind; rest = r.payload } };

    ghost invariant = { λ r. (¬ IsGroup r.src) × (r.kind ≢ ethertype_vlan) × (r.kind ≢ ethertype_hsr) × (length r.payload ≤ max_payload) };
}

/// A frame with its HSR tag, with a payload of at most `MAX_PAYLOAD` octets where it stands (IEC 62439-3 clause 5.6): path
/// below 16, size below 4096, as they came.
#[derive(Drop)]
pub struct TaggedView<'a> {
    pub dst: Mac,
    pub src: Mac,
    pub vlan: Option<u16>,
    pub path: u8,
    pub size: u16,
    pub seq: u16,
    /// The EtherType.
    pub kind: u16,
    pub payload: Payload<'a>,
}

impl<'a> Model for TaggedView<'a> {
    ghost use Rattle.std.specs.Prelude.{◌≢◌, ◌<◌, ◌≤◌, length};
    ghost use Rattle.hsr_frame.specs.Address.{IsGroup};
    ghost use Rattle.hsr_frame.specs.Layout.{ethertype_hsr, ethertype_vlan, max_payload};
    ghost use Rattle.hsr_tag.specs.Tag.{TaggedFields};

    ghost Value = { TaggedFields };

    ghost view = { λ r. record { dst = r.dst; src = r.src; vlan = r.vlan; path = r.path; size = r.size; seq = r.seq; kind = r.kind; payload = r.payload } };

    ghost invariant = { λ r. (¬ IsGroup r.src) × (r.kind ≢ ethertype_vlan) × (r.kind ≢ ethertype_hsr) × (r.path < 16) × (r.size < 4096) × (length r.payload ≤ max_payload) };
}

/// A frame that was read, tagged or not.
#[derive(Drop)]
pub enum EitherView<'a> {
    Plain(FrameView<'a>),
    Tagged(TaggedView<'a>),
}

/// A frame that was read, with its payload where it stands.
#[derive(Drop)]
pub struct SeenView<'a> {
    pub frame: EitherView<'a>,
}

impl<'a> Model for SeenView<'a> {
    ghost use Rattle.hsr_tag.specs.declared.seen.Seen.{Seen};

    ghost Value = { Seen };

    ghost use Rattle.hsr_tag.specs.View.{seen_by};

    ghost view = { λ s. seen_by s.frame };
}

impl<'a> FrameView<'a> {
    /// The frame with a tag of this path, below 16, and number.
    // Inline, since a call would pass the frame through memory.
    #[inline(always)]
    pub fn tag(&self, path: u8, seq: u16) -> TaggedView<'a>
        requires { path < 16 }
        ensures { result ≡ tag_of self.now path seq }
    {
        TaggedView {
            dst: self.dst,
            src: self.src,
            vlan: self.vlan,
            path,
            // The size counts the tag's six octets too. It is 1506 at most, so 12 bits hold it.
            size: (self.payload.as_slice().len() + TAG_LEN) as u16,
            seq,
            kind: self.kind,
            payload: self.payload.copy(),
        }
    }

    /// The frame, with a copy of its payload.
    pub fn to_frame(&self) -> Frame
        ensures { result ≡ self.now }
    {
        Frame {
            dst: self.dst,
            src: self.src,
            vlan: self.vlan,
            kind: self.kind,
            payload: copied(self.payload.as_slice()),
        }
    }

    /// The octets in front of the payload: addresses, a VLAN tag if there is one, and the EtherType.
    // Inline, since a call would pass the octets through memory.
    #[inline(always)]
    pub fn head<const CAP: usize>(&self) -> ArrayVec<u8, CAP>
        requires { longest_head ≤ CAP }
        ensures octets { result.items ++ self.now.rest ≡ spelling self.now }
        ensures len { array_vec_len result ≤ longest_head }
        ensures well_formed { IsPlain self.now }
    {
        let mut head = ArrayVec::new();
        put_head(&mut head, &self.dst, &self.src, self.vlan);
        put_u16(&mut head, self.kind);
        head
    }

    /// The octets of the frame; a payload that stands elsewhere is not copied.
    // Inline, since a call would pass the pieces through memory.
    #[inline(always)]
    pub fn spell(&self) -> Spelled<'a>
        ensures octets { result ≡ spelling self.now }
        ensures well_formed { IsPlain self.now }
    {
        self.payload.behind(self.head())
    }
}

impl<'a> TaggedView<'a> {
    /// The frame without its tag.
    // Inline, since a call would pass the frame through memory.
    #[inline(always)]
    pub fn untag(&self) -> FrameView<'a>
        ensures { result ≡ untag_of self.now }
    {
        FrameView {
            dst: self.dst,
            src: self.src,
            vlan: self.vlan,
            kind: self.kind,
            payload: self.payload.copy(),
        }
    }

    /// The octets of the frame without its tag, in two pieces of the octets of the frame: what stands in front of the tag, and what stands
    /// behind it (IEC 62439-3 clause 5.6).
    // For who only writes them: to form the frame anew would copy its head some six times on its way.
    #[inline(always)]
    pub fn untagged_pieces<'b>(&self, octets: &'b [u8]) -> (&'b [u8], &'b [u8])
        requires { Spells octets.now (Seen.Tagged self.now) }
        ensures { result.0.now ++ result.1.now ≡ spelling (untag_of self.now) }
    {
        let at = match self.vlan {
            None => ADDRESSES,
            Some(_) => ADDRESSES_AND_VLAN,
        };
        (&octets[..at], &octets[at + TAG_LEN..])
    }

    /// The frame, with a copy of its payload.
    pub fn to_tagged(&self) -> Tagged
        ensures { result ≡ self.now }
    {
        Tagged {
            dst: self.dst,
            src: self.src,
            vlan: self.vlan,
            path: self.path,
            size: self.size,
            seq: self.seq,
            kind: self.kind,
            payload: copied(self.payload.as_slice()),
        }
    }

    /// The octets in front of the payload: addresses, a VLAN tag if there is one, the HSR tag and the EtherType.
    // Inline, since a call would pass the octets through memory.
    #[inline(always)]
    pub fn head<const CAP: usize>(&self) -> ArrayVec<u8, CAP>
        requires { longest_head ≤ CAP }
        ensures octets { result.items ++ self.now.payload ≡ tagged_spelling self.now }
        ensures len { array_vec_len result ≤ longest_head }
        ensures well_formed { IsTagged self.now }
    {
        let mut head = ArrayVec::new();
        put_head(&mut head, &self.dst, &self.src, self.vlan);
        put_tag(&mut head, self.path, self.size, self.seq, self.kind);
        head
    }

    /// The octets of the frame; a payload that stands elsewhere is not copied.
    // Inline, since a call would pass the pieces through memory.
    #[inline(always)]
    pub fn spell(&self) -> Spelled<'a>
        ensures octets { result ≡ tagged_spelling self.now }
        ensures well_formed { IsTagged self.now }
    {
        self.payload.behind(self.head())
    }
}

impl<'a> SeenView<'a> {
    /// The frame, with a copy of its payload.
    /// For who keeps the frame longer than the octets that it was read from.
    pub fn to_seen(&self) -> Seen
        ensures { result ≡ self.now }
    {
        match &self.frame {
            EitherView::Plain(frame) => Seen::Plain(frame.to_frame()),
            EitherView::Tagged(frame) => Seen::Tagged(frame.to_tagged()),
        }
    }
}
