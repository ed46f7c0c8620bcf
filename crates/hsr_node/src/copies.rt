//! What leaves a node by a port, and what goes up.
ghost use Rattle.std.specs.Prelude.{◌≡◌, ◌++◌, IfSome, Option, Result, Some, option_map};
ghost use Rattle.hsr_node.specs.Copies.{as_came, copy_octets, forwarded, octets_at, passed_octets, plain_in, plain_octets, ports_of, ring_octets, unchanged_octets, up_octets, written};
ghost use Rattle.hsr_node.specs.Flow.{sent_by};

use crate::event::{Event, Outcome};
use crate::octets::Octets;
use crate::place::Place;
use crate::sending::{SentView, sent_view};
use crate::side::{Side, is_ring, path_of, side_of};
use arrayvec::ArrayVec;
use hsr_frame::{FrameFault, MAX_FRAME, RingPort};
use hsr_tag::{EitherView, FrameView, SeenView, Spelled, look_at};

/// The octets of a frame.
pub type FrameOctets = ArrayVec<u8, MAX_FRAME>;

/// The octets of a frame in front of its payload: two addresses, a VLAN tag, an HSR tag and an EtherType at most (IEC 62439-3 clause 5.6).
pub type FrameHead = ArrayVec<u8, 24>;

/// The octets of a frame as it leaves by a ring port, with its number and the port's path (IEC 62439-3 clause 5.6).
// Inline, since a call would pass the pieces through memory.
#[inline(always)]
pub fn ring_octets<'a>(port: RingPort, seq: u16, frame: &FrameView<'a>) -> Spelled<'a>
    ensures { result ≡ ring_octets port seq frame.now }
{
    frame.tag(path_of(port), seq).spell()
}

/// The octets of a frame of the node's own, or of one that it numbers or untags: plain at an edge, and on a ring with
/// its number (IEC 62439-3 clause 5.6).
// Inline, since a call would pass the pieces through memory.
#[inline(always)]
fn octets_at<'a>(side: Side, seq: Option<u16>, frame: &FrameView<'a>) -> Option<Spelled<'a>>
    ensures { result ≡ octets_at side seq frame.now }
{
    match side {
        Side::Edge => Some(frame.spell()),
        Side::Ring(port) => match seq {
            Some(seq) => Some(ring_octets(port, seq, frame)),
            None => None,
        },
    }
}

/// The head of a frame as `octets_at` spells it.
// Inline, since a call would pass the octets through memory.
#[inline(always)]
fn head_at(side: Side, seq: Option<u16>, frame: &FrameView<'_>) -> Option<FrameHead>
    ensures { option_map (λ head. head.items ++ frame.now.rest) result ≡ octets_at side seq frame.now }
{
    match side {
        Side::Edge => Some(frame.head()),
        Side::Ring(port) => match seq {
            Some(seq) => Some(frame.tag(path_of(port), seq).head()),
            None => None,
        },
    }
}

/// The octets of a frame, if there is one, that leaves by a port, if there is one.
fn written<'a>(
    side: Option<Side>,
    seq: Option<u16>,
    frame: Option<FrameView<'a>>,
) -> Option<Spelled<'a>>
    ensures { result ≡ written side seq frame.entry }
{
    match side {
        Some(side) => match frame {
            Some(frame) => octets_at(side, seq, &frame),
            None => None,
        },
        None => None,
    }
}

/// The frame that came, without its tag.
// Inline, since a call would pass the frame through memory.
#[inline(always)]
fn plain_in<'a>(seen: Result<SeenView<'a>, FrameFault>) -> Option<FrameView<'a>>
    ensures { result ≡ plain_in seen.entry }
{
    let Ok(seen) = seen else {
        return None;
    };
    match seen.frame {
        EitherView::Plain(frame) => Some(frame),
        EitherView::Tagged(frame) => Some(frame.untag()),
    }
}

/// The octets of the frame that came, without its tag; `None` where no frame came.
// Inline, since a call would pass the pieces through memory.
#[inline(always)]
pub fn plain_octets(octets: &[u8]) -> Option<Spelled<'_>>
    ensures { result ≡ plain_octets octets.now }
{
    let frame = plain_in(look_at(octets))?;
    Some(frame.spell())
}

/// The octets as they came, which are no more than a frame has.
fn as_came(octets: &[u8]) -> Option<Spelled<'_>>
    ensures { result ≡ as_came octets.now }
{
    // Never so where something was forwarded. Total, so that callers have no premise.
    if octets.len() > MAX_FRAME {
        None
    } else {
        Some(Spelled::whole(octets))
    }
}

/// What came to one port and leaves by another: from ring to ring as it came (IEC 62439-3 clause 5.3), else as the
/// plain frame leaves there.
fn forwarded(
    from: Option<Side>,
    to: Option<Side>,
    seq: Option<u16>,
    octets: &[u8],
) -> Option<Spelled<'_>>
    ensures { result ≡ forwarded from to seq octets.now }
{
    let (Some(from), Some(to)) = (from, to) else {
        return None;
    };
    // From ring to ring nothing is formed anew: path and size stay as they came (RULES, Stations, and what leaves by a port).
    if is_ring(from) && is_ring(to) {
        as_came(octets)
    } else {
        written(Some(to), seq, plain_in(look_at(octets)))
    }
}

/// Whether something leaves by a port after an event with this outcome.
pub fn is_left_by(outcome: &Outcome, port: u8) -> bool
    ensures { result ≡ unwrap_or (slice_get (ports_of outcome.now) port) false }
{
    let port = usize::from(port);
    match outcome {
        Outcome::Sent { ports, .. } => ports.get(port).copied().unwrap_or(false),
        Outcome::Life { ports, .. } => ports.get(port).copied().unwrap_or(false),
        Outcome::Judged { ports, .. } => ports.get(port).copied().unwrap_or(false),
        Outcome::Aged => false,
    }
}

ghost use Rattle.std.specs.Prelude.{slice_get, unwrap_or, false};

/// What leaves by a port by which something does.
// Inline, since a call would pass the pieces through memory.
#[inline(always)]
#[tactic(auto, unfolding(crate::specs::Copies::passed_octets))]
fn passed<'a>(place: &Place, event: &'a Event, outcome: &Outcome, port: u8) -> Option<Spelled<'a>>
    ensures { result ≡ passed_octets place.now event.now outcome.now port }
{
    let side = side_of(place, port);
    match event {
        Event::Arrive { port: x, carried } => match outcome {
            Outcome::Judged { seq, .. } => {
                forwarded(side_of(place, *x), side, *seq, carried.octets.as_slice())
            }
            _ => None,
        },
        _ => {
            let sent = sent_view(place, event, outcome)?;
            octets_at(side?, sent.seq, &sent.frame)
        }
    }
}

/// The octets that leave a place by a port after an event with this outcome, if some do: of a frame of the node's own,
/// and of one between an interlink and a ring, those of the frame as it leaves there; from ring to ring the octets as
/// they came (IEC 62439-3 clause 5.3). What stands in the event is not copied.
// Inline, since a call would pass the pieces through memory.
#[inline(always)]
#[tactic(auto, unfolding(crate::specs::Copies::copy_octets))]
pub fn spelled_out<'a>(
    place: &Place,
    event: &'a Event,
    outcome: &Outcome,
    port: u8,
) -> Option<Spelled<'a>>
    ensures { result ≡ copy_octets place.now event.now outcome.now port }
{
    if is_left_by(outcome, port) {
        passed(place, event, outcome, port)
    } else {
        None
    }
}

/// The octets that leave a place by a port as they came, in the room in which they stand: those of an arrival that goes on from ring to
/// ring (IEC 62439-3 clause 5.3). `None` where nothing leaves there, and where a frame is formed for it: `spelled_out` tells those octets.
// For who asks first: most copies go on as they came, and `Spelled` has room for a head that no one needs then.
#[tactic(auto, unfolding(crate::specs::Copies::copy_octets, crate::specs::Copies::passed_octets, crate::specs::Copies::unchanged_octets))]
pub fn going_on<'a>(
    place: &Place,
    event: &'a Event,
    outcome: &Outcome,
    port: u8,
) -> Option<&'a Octets>
    ensures exact { option_map (λ octets. octets.now) result ≡ unchanged_octets place.now event.now outcome.now port }
    ensures leaves { IfSome result (λ octets. copy_octets place.now event.now outcome.now port ≡ Some octets.now) }
{
    let Event::Arrive { port: x, carried } = event else {
        return None;
    };
    let Outcome::Judged { .. } = outcome else {
        return None;
    };
    let is_within = carried.octets.as_slice().len() <= MAX_FRAME;
    if is_left_by(outcome, port)
        && is_within
        && is_ring(side_of(place, *x)?)
        && is_ring(side_of(place, port)?)
    {
        Some(&carried.octets)
    } else {
        None
    }
}

/// The head of a frame of the node's own, as `sent_view` tells it, as it leaves by a port, if it does: its payload follows as it is.
// For who asks for each port in turn, since the frame is formed once then, and `Spelled` has room for a payload that no one needs.
// Inline, since a call would pass the octets through memory.
#[inline(always)]
#[tactic(auto, unfolding(crate::specs::Copies::copy_octets, crate::specs::Copies::passed_octets))]
pub fn head_out(
    place: &Place,
    event: &Event,
    outcome: &Outcome,
    sent: &SentView<'_>,
    port: u8,
) -> Option<FrameHead>
    requires { sent_by place.now event.now outcome.now ≡ Some sent.now }
    ensures { option_map (λ head. head.items ++ sent.now.frame.rest) result
        ≡ copy_octets place.now event.now outcome.now port }
{
    if is_left_by(outcome, port) {
        head_at(side_of(place, port)?, sent.seq, &sent.frame)
    } else {
        None
    }
}

/// The octets of the plain frame that goes up after an event with this outcome, if one does. What stands in the event is
/// not copied.
// Inline, since a call would pass the pieces through memory.
#[inline(always)]
#[tactic(auto, unfolding(crate::specs::Copies::up_octets))]
pub fn spelled_up<'a>(event: &'a Event, outcome: &Outcome) -> Option<Spelled<'a>>
    ensures { result ≡ up_octets event.now outcome.now }
{
    let Event::Arrive { port: _, carried } = event else {
        return None;
    };
    let Outcome::Judged { up: true, .. } = outcome else {
        return None;
    };
    plain_octets(carried.octets.as_slice())
}

/// What `spelled_out` gives, copied.
pub fn copy_out(place: &Place, event: &Event, outcome: &Outcome, port: u8) -> Option<FrameOctets>
    ensures { option_map (λ o. o.items) result ≡ copy_octets place.now event.now outcome.now port }
{
    let spelled = spelled_out(place, event, outcome, port)?;
    Some(spelled.to_array())
}

/// What `spelled_up` gives, copied.
pub fn up_out(event: &Event, outcome: &Outcome) -> Option<FrameOctets>
    ensures { option_map (λ o. o.items) result ≡ up_octets event.now outcome.now }
{
    let spelled = spelled_up(event, outcome)?;
    Some(spelled.to_array())
}
