//! What octets are.
//!
//! `frame` has the drawing of a tag. Here its offsets are counted from behind the type 892F.
ghost use Rattle.std.specs.Prelude.{List, ℕ, ◌≡◌, ◌<◌, ◌≤◌, ◌+◌, ◌*◌, length, IfOk, IfErr, MatchResult, Ok, Some, None};
ghost use Rattle.hsr_frame.specs.Grammar.{Fields, spelling, IsRaw};
ghost use Rattle.hsr_tag.specs.Tag.{TaggedFields, IsPlain, IsTagged, tagged_spelling};

use crate::frame::{Frame, Tagged};
use crate::payload::Payload;
use crate::view::{EitherView, FrameView, SeenView, TaggedView};
use hsr_frame::{ETHERTYPE_HSR, ETHERTYPE_VLAN, FrameFault, Head, MAX_PAYLOAD, TAG_LEN, u16_at};

/// A frame that was read.
#[derive(Drop)]
pub enum Seen {
    Plain(Frame),
    Tagged(Tagged),
}

ghost use Rattle.hsr_tag.specs.Seen.{IsReadOneWay, Sees, Spells, classified, seen_in, tag_fault};

/// What a frame is from its type on; its rest is given by itself, so that its octets are known to be octets.
// Inline, since a call would pass the frame through memory.
#[inline(always)]
fn seen_of<'a>(head: &Head<'a>, rest: &'a [u8]) -> Result<SeenView<'a>, FrameFault>
    requires raw { IsRaw head.now }
    requires same { head.now.rest ≡ rest.now }
    ensures sees { IfOk result (λ s. Sees head.now s) }
    ensures found { IfOk result (λ s. (tag_fault head.now ≡ None) × (s ≡ seen_in head.now)) }
    ensures fault { IfErr result (λ e. tag_fault head.now ≡ Some e) }
{
    if head.kind != ETHERTYPE_HSR {
        // A `Head` allows `TAG_LEN` octets more, since it doesn't know yet whether they are a tag.
        if rest.len() > MAX_PAYLOAD {
            return Err(FrameFault::Long);
        }
        let frame = EitherView::Plain(FrameView {
            dst: head.dst,
            src: head.src,
            vlan: head.vlan,
            kind: head.kind,
            payload: Payload::there(rest),
        });
        return Ok(SeenView { frame });
    }
    if rest.len() < TAG_LEN {
        return Err(FrameFault::ShortTag);
    }
    let first = u16_at(rest, 0);
    let ethertype = u16_at(rest, 4);
    // A second HSR tag is told before a VLAN tag behind the first (RULES, Frames).
    if ethertype == ETHERTYPE_HSR {
        return Err(FrameFault::NestedTag);
    }
    if ethertype == ETHERTYPE_VLAN {
        return Err(FrameFault::DoubleVlan);
    }
    let frame = EitherView::Tagged(TaggedView {
        dst: head.dst,
        src: head.src,
        vlan: head.vlan,
        path: (first / 4096) as u8,
        size: first % 4096,
        seq: u16_at(rest, 2),
        kind: ethertype,
        payload: Payload::there(&rest[TAG_LEN..]),
    });
    Ok(SeenView { frame })
}

/// Reads octets.
// Inline, since a call would pass the frame through memory.
#[inline(always)]
fn read_seen(octets: &[u8]) -> Result<SeenView<'_>, FrameFault>
    ensures exact { result ≡ classified octets.now }
    ensures found { IfOk result (λ s. Spells octets.now s) }
    ensures only_plain { (f : Fields) → IsPlain f → octets.now ≡ spelling f
        → result ≡ Ok (Seen.Plain f) }
    ensures only_tagged { (t : TaggedFields) → IsTagged t → octets.now ≡ tagged_spelling t
        → result ≡ Ok (Seen.Tagged t) }
{
    let head = Head::parse(octets)?;
    seen_of(&head, head.rest)
}

/// The frame that the octets spell, with its payload where it stands, or the first of the faults: too short, too long, from
/// a group, with two VLAN tags; then an HSR tag that is too short, an HSR tag or VLAN tag behind it, a plain frame that is
/// too long (IEC 62439-3 clause 5.6).
// Inline, since a call would pass the frame through memory.
#[inline(always)]
pub fn look_at(octets: &[u8]) -> Result<SeenView<'_>, FrameFault>
    ensures exact { result ≡ classified octets.now }
    // What is read is spelled so.
    ensures found { IfOk result (λ s. Spells octets.now s) }
    // What is spelled so is read.
    ensures only_plain { (f : Fields) → IsPlain f → octets.now ≡ spelling f
        → result ≡ Ok (Seen.Plain f) }
    ensures only_tagged { (t : TaggedFields) → IsTagged t → octets.now ≡ tagged_spelling t
        → result ≡ Ok (Seen.Tagged t) }
    // Whatever the octets are, they are read in one way.
    ensures one_way { IsReadOneWay octets.now }
{
    read_seen(octets)
}

/// The frame that the octets spell, with a copy of its payload, or the first of the faults: too short, too long, from a
/// group, with two VLAN tags; then an HSR tag that is too short, an HSR tag or VLAN tag behind it, a plain frame that is
/// too long (IEC 62439-3 clause 5.6).
pub fn classify(octets: &[u8]) -> Result<Seen, FrameFault>
    ensures exact { result ≡ classified octets.now }
    // What is read is spelled so.
    ensures found { IfOk result (λ s. Spells octets.now s) }
    // What is spelled so is read.
    ensures only_plain { (f : Fields) → IsPlain f → octets.now ≡ spelling f
        → result ≡ Ok (Seen.Plain f) }
    ensures only_tagged { (t : TaggedFields) → IsTagged t → octets.now ≡ tagged_spelling t
        → result ≡ Ok (Seen.Tagged t) }
    // Whatever the octets are, they are read in one way.
    ensures one_way { IsReadOneWay octets.now }
{
    // One reading for both: this one only copies, so both know the same frames.
    let seen = look_at(octets)?;
    Ok(seen.to_seen())
}
