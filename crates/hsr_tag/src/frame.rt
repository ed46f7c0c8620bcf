//! Frames with and without an HSR tag.
//!
//! A tagged frame without a VLAN tag, with offsets in octets (IEC 62439-3 clause 5.6). A VLAN tag stands before the HSR
//! tag, and moves all from 12 on by 4 octets:
//!
//! ```text
//! offset  octets
//!  0      6       destination
//!  6      6       source
//! 12      2       type 892F
//! 14      2       path (upper 4 bits), size (lower 12 bits): the payload and 6
//! 16      2       sequence number
//! 18      2       the frame's own type
//! 20      0-1500  payload
//! ```
ghost use Rattle.std.specs.Prelude.{◌≡◌, ◌+◌, ◌*◌, ◌<◌, ◌≤◌, ◌++◌, length};
ghost use Rattle.arrayvec.specs.ArrayVec.{array_vec_len};
ghost use Rattle.hsr_frame.specs.Grammar.{pair, spelling};
ghost use Rattle.hsr_frame.specs.Layout.{ethertype_hsr};
ghost use Rattle.hsr_tag.specs.Tag.{tag_of, untag_of, IsPlain, IsTagged, tagged_spelling};

use arrayvec::ArrayVec;
use hsr_frame::{
    ETHERTYPE_HSR, MAX_FRAME, MAX_PAYLOAD, Mac, TAG_LEN, copied, put, put_head, put_u16,
};
use std::marker::Model;

/// A frame with no HSR tag. No group sends it, and its type is that of no VLAN or HSR tag. A length field in place of a
/// type is kept as a number (IEEE 802.3 clause 3).
#[derive(Drop)]
pub struct Frame {
    pub dst: Mac,
    pub src: Mac,
    pub vlan: Option<u16>,
    /// The EtherType.
    pub kind: u16,
    pub payload: ArrayVec<u8, MAX_PAYLOAD>,
}

impl Model for Frame {
    ghost use Rattle.std.specs.Prelude.{◌≢◌};
    ghost use Rattle.hsr_frame.specs.Address.{IsGroup};
    ghost use Rattle.hsr_frame.specs.Grammar.{Fields};
    ghost use Rattle.hsr_frame.specs.Layout.{ethertype_hsr, ethertype_vlan};

    ghost Value = { Fields };

    ghost view = { λ r. record { dst = r.dst; src = r.src; vlan = r.vlan; kind = r.kind; rest = r.payload.items } };

    ghost invariant = { λ r. (¬ IsGroup r.src) × (r.kind ≢ ethertype_vlan) × (r.kind ≢ ethertype_hsr) };
}

/// A frame with its HSR tag (IEC 62439-3 clause 5.6): path below 16, size below 4096, as they came.
#[derive(Drop)]
pub struct Tagged {
    pub dst: Mac,
    pub src: Mac,
    pub vlan: Option<u16>,
    pub path: u8,
    pub size: u16,
    pub seq: u16,
    /// The EtherType.
    pub kind: u16,
    pub payload: ArrayVec<u8, MAX_PAYLOAD>,
}

impl Model for Tagged {
    ghost use Rattle.std.specs.Prelude.{◌≢◌, ◌<◌};
    ghost use Rattle.hsr_frame.specs.Address.{IsGroup};
    ghost use Rattle.hsr_frame.specs.Layout.{ethertype_hsr, ethertype_vlan};
    ghost use Rattle.hsr_tag.specs.Tag.{TaggedFields};

    ghost Value = { TaggedFields };

    ghost view = { λ r. record { dst = r.dst; src = r.src; vlan = r.vlan; path = r.path; size = r.size; seq = r.seq; kind = r.kind; payload = r.payload.items } };

    ghost invariant = { λ r. (¬ IsGroup r.src) × (r.kind ≢ ethertype_vlan) × (r.kind ≢ ethertype_hsr) × (r.path < 16) × (r.size < 4096) };
}

/// Puts an HSR tag and the type behind it: path below 16, size below 4096 (IEC 62439-3 clause 5.6).
pub(crate) fn put_tag<const CAP: usize>(
    out: &mut ArrayVec<u8, CAP>,
    path: u8,
    size: u16,
    seq: u16,
    kind: u16,
)
    requires path { path < 16 }
    requires size { size < 4096 }
    requires room { array_vec_len out.old + 8 ≤ CAP }
    ensures { out.new.items
        ≡ out.old.items ++ (pair ethertype_hsr ++ (pair (path * 4096 + size) ++ (pair seq ++ pair kind))) }
{
    put_u16(out, ETHERTYPE_HSR);
    // Path and size are written as they came: neither is checked (RULES, Frames).
    put_u16(out, u16::from(path) * 4096 + size);
    put_u16(out, seq);
    put_u16(out, kind);
}

impl Frame {
    /// The frame with a tag of this path, below 16, and number.
    pub fn tag(&self, path: u8, seq: u16) -> Tagged
        requires { path < 16 }
        ensures tagged { result ≡ tag_of self.now path seq }
        ensures back { untag_of result ≡ self.now }
    {
        Tagged {
            dst: self.dst,
            src: self.src,
            vlan: self.vlan,
            path,
            // The size counts the tag's six octets too. It is 1506 at most, so 12 bits hold it.
            size: (self.payload.len() + TAG_LEN) as u16,
            seq,
            kind: self.kind,
            payload: copied(self.payload.as_slice()),
        }
    }

    /// The octets of the frame: `MAX_FRAME` at most.
    pub fn write(&self) -> ArrayVec<u8, MAX_FRAME>
        ensures octets { result.items ≡ spelling self.now }
        ensures well_formed { IsPlain self.now }
    {
        let mut out = ArrayVec::new();
        put_head(&mut out, &self.dst, &self.src, self.vlan);
        put_u16(&mut out, self.kind);
        put(&mut out, self.payload.as_slice());
        out
    }
}

impl Tagged {
    /// The frame without its tag.
    /// Its payload is copied: a `Frame` owns its octets. Path, size and number are gone.
    pub fn untag(&self) -> Frame
        ensures { result ≡ untag_of self.now }
    {
        Frame {
            dst: self.dst,
            src: self.src,
            vlan: self.vlan,
            kind: self.kind,
            payload: copied(self.payload.as_slice()),
        }
    }

    /// The octets of the frame: `MAX_FRAME` at most.
    pub fn write(&self) -> ArrayVec<u8, MAX_FRAME>
        ensures octets { result.items ≡ tagged_spelling self.now }
        ensures well_formed { IsTagged self.now }
    {
        let mut out = ArrayVec::new();
        put_head(&mut out, &self.dst, &self.src, self.vlan);
        put_tag(&mut out, self.path, self.size, self.seq, self.kind);
        put(&mut out, self.payload.as_slice());
        out
    }
}
