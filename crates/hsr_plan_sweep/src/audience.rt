//! At whom a send is due: those whom its stream is for, as far as they are on when it is sent.
ghost use Rattle.std.specs.Prelude.{◌≡◌, None, slice_get};
ghost use Rattle.hsr_plan_sweep.specs.Audience.{comes_next, first_in_need, is_for, is_for_stream, is_named, is_off, is_one_of, is_off_by, last_turn, needs, needs_if, next_turn, one_needs, turn_by};

use hsr_plan_network::{Node, is_in};
use hsr_plan_text::{Deed, Event, Stream, Word};
use std::marker::Model;

/// The nodes of a plan, its streams, and its events.
#[derive(Drop)]
pub struct Audience<'a> {
    pub nodes: &'a [Node],
    pub streams: &'a [Stream],
    pub events: &'a [Event],
}

impl<'a> Model for Audience<'a> {
    ghost use Rattle.hsr_plan_sweep.specs.Audience.{Audience};

    ghost Value = { Audience };

    ghost view = { λ a. record { nodes = a.nodes.now; streams = a.streams.now; events = a.events.now } };
}

// ---- who is on

/// When a node went off or came on last, and whether it is off since.
#[derive(Clone, Copy)]
struct Turn {
    at: u64,
    is_off: bool,
}

/// Whether the node of a name is off behind an event, if that is about it.
fn turn_by(name: &[u8], deed: &Deed) -> Option<bool>
    ensures { result ≡ turn_by name.now deed.now }
{
    match deed {
        Deed::Off(other) if other.as_bytes() == name => Some(true),
        Deed::On(other) if other.as_bytes() == name => Some(false),
        _ => None,
    }
}

/// Whether a moment isn't before that of the last turn.
fn comes_next(last: Option<Turn>, at: u64) -> bool
    ensures { result ≡ comes_next last at }
{
    match last {
        None => true,
        // Of two at one moment the one that is listed later is the last.
        Some(last) => last.at <= at,
    }
}

/// The later of the last turn and an event, if that is about the node and comes at a moment or before it.
fn next_turn(now: u64, name: &[u8], last: Option<Turn>, event: &Event) -> Option<Turn>
    ensures { result ≡ next_turn now name.now last event.now }
{
    let counts = event.at <= now && comes_next(last, event.at);
    match turn_by(name, &event.deed) {
        Some(is_off) if counts => Some(Turn {
            at: event.at,
            is_off,
        }),
        _ => last,
    }
}

/// The last turn of the node of a name up to a moment.
#[tactic(auto, using(crate::proofs::Listing::turn_step))]
fn last_turn(now: u64, name: &[u8], events: &[Event]) -> Option<Turn>
    ensures { result ≡ last_turn now name.now None events.now }
{
    let mut last = None;
    for event in events.iter() {
        last = next_turn(now, name, last, event);
    }
    last
}

/// Whether the node of a name is off at a moment, behind the events of that moment.
fn is_off(now: u64, name: &[u8], events: &[Event]) -> bool
    ensures { result ≡ is_off now name.now events.now }
{
    match last_turn(now, name, events) {
        None => false,
        Some(last) => last.is_off,
    }
}

// ---- whom a stream is for

/// Whether a name is that of a node, or of a station that it is.
fn is_named(node: &Node, name: &Word) -> bool
    ensures { result ≡ is_named node.now name.now }
{
    node.name.as_bytes() == name.as_bytes() || is_in(name.as_bytes(), node.stations.as_slice())
}

/// Whether one of these names is that of a node, or of a station that it is.
fn is_one_of(names: &[Word], node: &Node) -> bool
    ensures { result ≡ is_one_of names.now node.now }
{
    names.iter().any(|name| is_named(node, name))
}

/// Whether a stream is for a node: nobody is named, or the node is.
fn is_for(stream: &Stream, node: &Node) -> bool
    ensures { result ≡ is_for stream.now node.now }
{
    stream.receivers.is_empty() || is_one_of(stream.receivers.as_slice(), node)
}

impl<'a> Audience<'a> {
    /// Whether the stream of that number is for a node; what is of no stream is for all.
    fn is_for_stream(&self, stream: Option<usize>, node: &Node) -> bool
        ensures { result ≡ is_for_stream self.now stream node.now }
    {
        match stream {
            None => true,
            Some(number) => match self.streams.get(number) {
                None => true,
                Some(stream) => is_for(stream, node),
            },
        }
    }

    /// Whether a node needs what is sent at a moment, from the stream of that number: it is on, and the stream is for it.
    pub fn needs(&self, stream: Option<usize>, at: u64, node: usize) -> bool
        ensures { result ≡ needs self.now stream at node }
    {
        match self.nodes.get(node) {
            None => true,
            Some(node) => {
                self.is_for_stream(stream, node) && !is_off(at, node.name.as_bytes(), self.events)
            }
        }
    }

    /// The first of these nodes that needs it.
    #[tactic(auto, using(crate::proofs::Listing::need_skip, crate::proofs::Listing::need_hit))]
    pub(crate) fn first_in_need(
        &self,
        stream: Option<usize>,
        at: u64,
        nodes: &[usize],
    ) -> Option<usize>
        ensures { result ≡ first_in_need self.now stream at nodes.now }
    {
        for node in nodes.iter() {
            if self.needs(stream, at, *node) {
                return Some(*node);
            }
        }
        None
    }

    /// Whether one of these nodes needs it.
    pub(crate) fn one_needs(&self, stream: Option<usize>, at: u64, nodes: &[usize]) -> bool
        ensures { result ≡ one_needs self.now stream at nodes.now }
    {
        nodes.iter().any(|node| self.needs(stream, at, *node))
    }
}
