//! The frames that a node sends of its own.
ghost use Rattle.std.specs.Prelude.{◌≡◌};
ghost use Rattle.hsr_node.specs.Copies.{address_at, asked_frame, frame_of, life_frame, life_said, ring_address};
ghost use Rattle.hsr_node.specs.Flow.{sending_of, sent_by};

use crate::event::{Event, Outcome};
use crate::place::Place;
use hsr_frame::{About, ETHERTYPE_HSR, ETHERTYPE_SUPERVISION, ETHERTYPE_VLAN, MAX_PAYLOAD, Mac};
use hsr_supervision::{SupKind, Supervision};
use hsr_tag::{Frame, FrameView, Payload};
use std::marker::Model;

/// A send: its plain frame, and the number that it got, if it got one.
#[derive(Drop)]
pub struct Sending {
    pub frame: Frame,
    pub seq: Option<u16>,
}

/// A send: its plain frame, with the payload where it stands, and the number that it got, if it got one.
#[derive(Drop)]
pub struct SentView<'a> {
    pub frame: FrameView<'a>,
    pub seq: Option<u16>,
}

impl<'a> Model for SentView<'a> {
    ghost use Rattle.hsr_node.specs.declared.sending.Sending.{Sending};

    ghost Value = { Sending };

    ghost view = { λ s. record { frame = s.frame; seq = s.seq } };
}

/// The frame with these fields, where there is one: no group sends it, its type is that of no VLAN or HSR tag, and its
/// payload has at most `MAX_PAYLOAD` octets.
fn frame_of<'a>(
    src: Mac,
    dst: Mac,
    vlan: Option<u16>,
    ethertype: u16,
    payload: Payload<'a>,
) -> Option<FrameView<'a>>
    ensures { result ≡ frame_of
        (record { dst = dst; src = src; vlan = vlan; kind = ethertype; rest = payload.entry }) }
{
    if src.is_group()
        || ethertype == ETHERTYPE_HSR
        || ethertype == ETHERTYPE_VLAN
        || payload.as_slice().len() > MAX_PAYLOAD
    {
        return None;
    }
    Some(FrameView {
        dst,
        src,
        vlan,
        kind: ethertype,
        payload,
    })
}

/// The address of a node on a ring: that of a DANH or a RedBox.
pub fn ring_address(place: &Place) -> Option<Mac>
    ensures { result ≡ ring_address place.now }
{
    match place {
        Place::Danh { mac, mode: _ } => Some(*mac),
        Place::RedBox { mac, mode: _ } => Some(*mac),
        Place::QuadBox => None,
        Place::Station { .. } => None,
    }
}

/// The address at a place among a node's own.
fn address_at(place: &Place, from: u8) -> Option<Mac>
    ensures { result ≡ address_at place.now from }
{
    match place {
        Place::Station { macs } => macs.as_slice().get(usize::from(from)).copied(),
        _ => { if from == 0 { ring_address(place) } else { None } }
    }
}

/// The frame that a send asks for, by its source: `None` where there is no source, or it is a group's, where the type is
/// that of a VLAN or HSR tag, and where the payload has more than `MAX_PAYLOAD` octets.
pub fn asked_frame<'a>(
    src: Option<Mac>,
    dst: Mac,
    vlan: Option<u16>,
    ethertype: u16,
    payload: &'a [u8],
) -> Option<FrameView<'a>>
    ensures { result ≡ asked_frame src dst vlan ethertype payload.now }
{
    let src = src?;
    frame_of(src, dst, vlan, ethertype, Payload::there(payload))
}

/// What a supervision frame says (IEC 62439-3 clause 5.7): a RedBox names itself where it speaks for a station.
fn life_said(own: Mac, about: About, life: u16) -> Supervision
    ensures { result ≡ life_said own about life }
{
    let (mac, redbox) = match about {
        About::Own => (own, None),
        About::Proxied(mac) => (mac, Some(own)),
    };
    Supervision {
        path: 0,
        version: 1,
        seq: life,
        kind: SupKind::Hsr,
        about: mac,
        redbox,
    }
}

/// The supervision frame of a node with this address, before it is tagged (IEC 62439-3 clause 5.7); `life` counts the node's
/// earlier ones, modulo 65536. `None` where there is no address, or it is a group's.
pub fn life_frame(own: Option<Mac>, about: About, life: u16) -> Option<FrameView<'static>>
    ensures { result ≡ life_frame own about life }
{
    let own = own?;
    let said = life_said(own, about, life).write();
    frame_of(
        own,
        Mac::supervision(),
        None,
        ETHERTYPE_SUPERVISION,
        // The payload is short and is made here, so the view holds it itself.
        Payload::here(said),
    )
}

/// A frame with its number.
fn sending_of<'a>(seq: Option<u16>, frame: Option<FrameView<'a>>) -> Option<SentView<'a>>
    ensures { result ≡ sending_of seq frame.entry }
{
    match frame {
        Some(frame) => Some(SentView { frame, seq }),
        None => None,
    }
}

/// What a node of this place sends of its own in an event with this outcome: the frame of an accepted send, or the
/// supervision frame (IEC 62439-3 clause 5.7). `None` where the event is an arrival or an ageing, where the outcome isn't
/// that of such an event, and where there is no such frame: the place has no such address, or it is a group's, the type is
/// that of a VLAN or HSR tag, or the payload has more than `MAX_PAYLOAD` octets. The payload stands in the event.
// Inline, since a call would pass the frame through memory.
#[inline(always)]
pub fn sent_view<'a>(place: &Place, event: &'a Event, outcome: &Outcome) -> Option<SentView<'a>>
    ensures { result ≡ sent_by place.now event.now outcome.now }
{
    match event {
        Event::Send {
            from,
            dst,
            vlan,
            kind: ethertype,
            payload,
        } => match outcome {
            Outcome::Sent { seq, ports: _ } => sending_of(
                *seq,
                asked_frame(
                    address_at(place, *from),
                    *dst,
                    *vlan,
                    *ethertype,
                    payload.as_slice(),
                ),
            ),
            _ => None,
        },
        Event::Supervise(about) => match outcome {
            Outcome::Life {
                seq,
                life,
                ports: _,
            } => sending_of(Some(*seq), life_frame(ring_address(place), *about, *life)),
            _ => None,
        },
        _ => None,
    }
}

/// What `sent_view` gives, with a copy of the payload.
pub fn sent_by(place: &Place, event: &Event, outcome: &Outcome) -> Option<Sending>
    ensures { result ≡ sent_by place.now event.now outcome.now }
{
    let sent = sent_view(place, event, outcome)?;
    Some(Sending {
        frame: sent.frame.to_frame(),
        seq: sent.seq,
    })
}
