//! A node of any kind.
ghost use Rattle.std.specs.Prelude.{◌≡◌, ◌^◌, IfOk};
ghost use Rattle.hsr_frame.specs.Counters.{AreWithin};
ghost use Rattle.hsr_duptable.specs.Table.{IsTableSize};

use crate::danh::apply_danh;
use crate::event::{Event, Outcome, StepFault};
use crate::place::Place;
use crate::quadbox::apply_quadbox;
use crate::redbox::apply_redbox;
use crate::station::Station;
use hsr_danh::Danh;
use hsr_frame::{Counters, NoMemory};
use hsr_quadbox::QuadBox;
use hsr_redbox::RedBox;
use std::alloc::Global;

/// A node of any kind, whose duplicate tables have `C` entries each, `C` from 1 to 65535 (IEC 62439-3 clause 5).
/// Moments are in microseconds; one that is earlier than the last is read as the last. Only `new` takes memory.
#[derive(Drop)]
pub enum Node<const C: usize> {
    Danh(Danh<C>),
    RedBox(RedBox<C>),
    QuadBox(QuadBox<C>),
    Station(Station),
}

impl<const C: usize> Node<C> {
    ghost use Rattle.hsr_node.specs.Place.{HasOwnAddress};
    ghost use Rattle.hsr_node.specs.Step.{counters_of, new_node, node_step};

    /// A node at this place that has done nothing. No group has the address of a DANH or RedBox. `NoMemory` if
    /// allocation fails.
    pub fn new(alloc: Global, place: &Place) -> Result<Self, NoMemory>
        requires station { HasOwnAddress place.now }
        requires entries { IsTableSize C }
        ensures { IfOk result (λ node. node ≡ new_node C place.now) }
    {
        match place {
            Place::Danh { mac, mode } => Ok(Node::Danh(Danh::new(alloc, *mac, *mode)?)),
            Place::RedBox { mac, mode } => Ok(Node::RedBox(RedBox::new(alloc, *mac, *mode)?)),
            Place::QuadBox => Ok(Node::QuadBox(QuadBox::new(alloc)?)),
            Place::Station { macs } => Ok(Node::Station(Station::new(macs))),
        }
    }

    /// Lets an event happen, as its kind of node does. `WrongEvent` exactly where the event doesn't fit the kind, its
    /// ports or its addresses: a QuadBox or Station has no supervision, a QuadBox sends nothing, a DANH's supervision
    /// names no address. A refusal changes nothing.
    // Inline, since it is called once for each size of tables, and a call would pass the outcome through memory.
    #[inline(always)]
    pub fn apply(&mut self, at: u64, event: &Event) -> Result<Outcome, StepFault>
        ensures { (result, self.new) ≡ node_step C self.old at event.now }
    {
        match self {
            Node::Danh(danh) => apply_danh(danh, at, event),
            Node::RedBox(redbox) => apply_redbox(redbox, at, event),
            Node::QuadBox(quadbox) => apply_quadbox(quadbox, at, event),
            Node::Station(station) => station.apply(at, event),
        }
    }

    /// How often each thing happened here.
    pub fn counters(&self) -> Counters
        ensures value { result ≡ counters_of C self.now }
        ensures within { AreWithin result (2 ^ 62) }
    {
        match self {
            Node::Danh(danh) => danh.counters(),
            Node::RedBox(redbox) => redbox.counters(),
            Node::QuadBox(quadbox) => quadbox.counters(),
            Node::Station(station) => station.counters(),
        }
    }
}
