//! The reference node, and the numbers that it gives.
ghost use Rattle.std.specs.Prelude.{◌≡◌, true, IfOk, OnOk, Some, None, if◌then◌else◌};
ghost use Rattle.hsr_duptable.specs.Table.{IsTableSize};
ghost use Rattle.hsr_node.specs.Place.{HasOwnAddress};
ghost use Rattle.hsr_node.specs.Step.{new_node};
ghost use Rattle.hsr_tag.specs.Seen.{classified};
ghost use Rattle.hsr_playback.specs.Answers.{after_life, after_number, numbered, renumbered, source_of};
ghost use Rattle.hsr_playback.specs.Playing.{has_own_address, place_of, station_octets};

use crate::known::{Given, arrival, arrival_known};
use crate::taken::Taken;
use hsr_frame::{Counters, Mac, NoMemory};
use hsr_node::{Event, Node, Octets, Outcome, Place, Role, StepFault};
use hsr_tag::{EitherView, look_at};
use hsr_tap_device::{Numbers, Owner};
use std::alloc::Global;
use std::marker::Model;

/// The port of an interlink.
const INTERLINK: u8 = 2;

/// The reference node, with the numbers that the device gives next, and the frames of stations that it numbered.
#[derive(Drop)]
pub(crate) struct Reference<const C: usize> {
    node: Node<C>,
    place: Place,
    given: Vec<Given>,
    next: u16,
    next_life: u16,
}

/// Where a device stands.
fn place_of(owner: &Owner) -> Option<Place>
    ensures { result ≡ place_of owner.now }
{
    match owner.role {
        Role::Danh => Some(Place::Danh {
            mac: owner.mac?,
            mode: owner.mode,
        }),
        Role::RedBox => Some(Place::RedBox {
            mac: owner.mac?,
            mode: owner.mode,
        }),
        Role::QuadBox => Some(Place::QuadBox),
        Role::Station => None,
    }
}

/// Whether no group has the address of a place.
fn has_own_address(place: &Place) -> bool
    ensures value { result ≡ has_own_address place.now }
    ensures own { result ≡ true → HasOwnAddress place.now }
{
    match place {
        Place::Danh { mac, .. } | Place::RedBox { mac, .. } => !mac.is_group(),
        Place::QuadBox | Place::Station { .. } => true,
    }
}

/// A node at a place that has done nothing; none where a group has its address.
fn new_node<const C: usize>(alloc: Global, place: &Place) -> Result<Option<Node<C>>, NoMemory>
    requires { IsTableSize C }
    ensures { IfOk result (λ o. o ≡ (if has_own_address place.now then Some (new_node C place.now) else None)) }
{
    if !has_own_address(place) {
        return Ok(None);
    }
    let node = Node::new(alloc, place)?;
    Ok(Some(node))
}

/// The octets of a frame that a station sends to itself: a RedBox that hears it knows the station, and sends nothing.
fn station_frame(alloc: Global, station: Mac) -> Result<Octets, NoMemory>
    ensures { IfOk result (λ o. o ≡ station_octets station) }
{
    let mut octets = Vec::with_capacity(alloc, 14)?;
    octets.extend_from_slice(&station.octets())?;
    octets.extend_from_slice(&station.octets())?;
    octets.extend_from_slice(b"\x88\xFB")?;
    Ok(Octets::new(octets))
}

/// The number that the device gave in place of one that the reference gave, if it gave one.
fn numbered(seq: Option<u16>, number: u16) -> Option<u16>
    ensures { result ≡ numbered seq number }
{
    match seq {
        Some(_) => Some(number),
        None => None,
    }
}

/// An outcome with the numbers that the device gave.
fn renumbered(outcome: Outcome, number: u16, life: u16) -> Outcome
    ensures { result ≡ renumbered outcome number life }
{
    match outcome {
        Outcome::Sent { seq, ports } => Outcome::Sent {
            seq: numbered(seq, number),
            ports,
        },
        Outcome::Life { ports, .. } => Outcome::Life {
            seq: number,
            life,
            ports,
        },
        Outcome::Judged {
            up,
            ports,
            seq,
            cause,
        } => Outcome::Judged {
            up,
            ports,
            seq: numbered(seq, number),
            cause,
        },
        Outcome::Aged => Outcome::Aged,
    }
}

/// The number after one that the device gave, if the reference gave one.
fn after_number(next: u16, reference: Option<u16>, number: u16) -> u16
    ensures { result ≡ after_number next reference number }
{
    match reference {
        Some(_) => number.wrapping_add(1),
        None => next,
    }
}

/// The supervision number after one that the device gave, if supervision was sent.
fn after_life(next: u16, outcome: &Outcome, life: u16) -> u16
    ensures { result ≡ after_life next outcome.now life }
{
    match outcome {
        Outcome::Life { .. } => life.wrapping_add(1),
        Outcome::Sent { .. } | Outcome::Judged { .. } | Outcome::Aged => next,
    }
}

/// The source of the plain frame that octets are.
fn source_of(octets: &[u8]) -> Option<Mac>
    ensures { result ≡ source_of (classified octets.now) }
{
    let Ok(seen) = look_at(octets) else {
        return None;
    };
    match seen.frame {
        EitherView::Plain(frame) => Some(frame.src),
        EitherView::Tagged(_) => None,
    }
}

impl<const C: usize> Model for Reference<C> {
    ghost use Rattle.std.specs.Prelude.{reverse};
    ghost use Rattle.hsr_playback.specs.Answers.{Machine};

    ghost Value = { Machine C };

    ghost view = { λ r. record { node = r.node; place = r.place; given = reverse r.given.items; next = r.next; next_life = r.next_life } };
}

impl<const C: usize> Reference<C> {
    ghost use Rattle.hsr_node.specs.Step.{counters_of, node_step};
    ghost use Rattle.std.specs.Prelude.{unwrap_or};
    ghost use Rattle.hsr_playback.specs.Answers.{applied, counted, event_known, noted_if, stepped};
    ghost use Rattle.hsr_playback.specs.Playing.{heard, heard_one, new_machine};

    /// The reference for a device; none where the device has no address that it can have.
    #[tactic(auto, unfolding(crate::specs::Playing::new_machine))]
    pub(crate) fn new(
        alloc: Global,
        owner: &Owner,
        numbers: Numbers,
    ) -> Result<Option<Self>, NoMemory>
        requires { IsTableSize C }
        ensures { IfOk result (λ o. o ≡ new_machine C owner.now numbers) }
    {
        let Some(place) = place_of(owner) else {
            return Ok(None);
        };
        let Some(node) = new_node(alloc, &place)? else {
            return Ok(None);
        };
        Ok(Some(Reference {
            node,
            place,
            given: Vec::new(alloc),
            next: numbers.start.unwrap_or(0),
            next_life: numbers.life_start.unwrap_or(0),
        }))
    }

    /// Hears a station at the start.
    fn hear_one(&mut self, alloc: Global, station: Mac) -> Result<(), NoMemory>
        ensures { OnOk result (self.new ≡ heard_one C self.old station) }
    {
        let octets = station_frame(alloc, station)?;
        // Only a RedBox has an interlink; another kind hears no station of it.
        let _ = self.node.apply(0, &arrival(INTERLINK, octets));
        Ok(())
    }

    /// Hears these stations at the start.
    #[tactic(auto, using(crate::proofs::Heard::heard_all))]
    pub(crate) fn hear(&mut self, alloc: Global, stations: &[Mac]) -> Result<(), NoMemory>
        ensures { OnOk result (self.new ≡ heard C self.old stations.now) }
    {
        for station in stations {
            self.hear_one(alloc, *station)?;
        }
        Ok(())
    }

    pub(crate) fn place(&self) -> &Place
        ensures { result.now ≡ self.now.place }
    {
        &self.place
    }

    pub(crate) fn counters(&self) -> Counters
        ensures { result ≡ counters_of C self.now.node }
    {
        self.node.counters()
    }

    /// The arrival as the reference knows it, where that is by another number than it came with. Only a RedBox numbers frames of
    /// others.
    fn known(&self, alloc: Global, at: u64, event: &Event) -> Result<Option<Event>, NoMemory>
        ensures { IfOk result (λ e. e ≡ event_known self.now.given at event.now) }
    {
        match event {
            Event::Arrive { port, carried } => {
                if *port == INTERLINK {
                    return Ok(None);
                }
                arrival_known(
                    alloc,
                    self.given.as_slice(),
                    at,
                    *port,
                    carried.octets.as_slice(),
                )
            }
            _ => Ok(None),
        }
    }

    /// Notes a frame of a station that it numbered, if it numbered one.
    #[tactic(auto, using(crate::proofs::Backwards::pushed_back))]
    fn note(
        &mut self,
        at: u64,
        event: &Event,
        reference: Option<u16>,
        device: u16,
    ) -> Result<(), NoMemory>
        ensures { OnOk result (self.new ≡ record self.old {
          given = noted_if self.old.given at event.now reference device;
        }) }
    {
        if let Some(reference) = reference
            && let Event::Arrive { carried, .. } = event
            && let Some(source) = source_of(carried.octets.as_slice())
        {
            self.given.push(Given {
                at,
                source,
                device,
                reference,
            })?;
        }
        Ok(())
    }

    /// Lets an event happen, as the reference knows it.
    fn apply(&mut self, at: u64, event: &Event, known: &Option<Event>) -> Result<Outcome, StepFault>
        ensures { (result, self.new)
            ≡ applied C self.old (node_step C self.old.node at (unwrap_or known.now event.now)) }
    {
        match known {
            Some(known) => self.node.apply(at, known),
            None => self.node.apply(at, event),
        }
    }

    /// Notes what the device numbered: these numbers are its latest.
    fn count(
        &mut self,
        at: u64,
        event: &Event,
        outcome: &Outcome,
        number: u16,
        life: u16,
    ) -> Result<(), NoMemory>
        ensures { OnOk result (self.new
            ≡ counted self.old at event.now outcome.now number life) }
    {
        self.note(at, event, outcome.number(), number)?;
        self.next = after_number(self.next, outcome.number(), number);
        self.next_life = after_life(self.next_life, outcome, life);
        Ok(())
    }

    /// Lets an event happen at a moment in microseconds. The outcome has the device's numbers: those that were taken over for this event,
    /// else the next ones.
    #[tactic(auto, unfolding(crate::specs::Answers::stepped))]
    pub(crate) fn step(
        &mut self,
        alloc: Global,
        at: u64,
        event: &Event,
        taken: Taken,
    ) -> Result<Result<Outcome, StepFault>, NoMemory>
        ensures { IfOk result (λ r. (r, self.new) ≡ stepped C self.old at event.now taken) }
    {
        let known = self.known(alloc, at, event)?;
        let number = taken.number.unwrap_or(self.next);
        let life = taken.life.unwrap_or(self.next_life);
        match self.apply(at, event, &known) {
            Ok(outcome) => {
                self.count(at, event, &outcome, number, life)?;
                Ok(Ok(renumbered(outcome, number, life)))
            }
            Err(fault) => Ok(Err(fault)),
        }
    }
}
