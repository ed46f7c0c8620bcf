//! All that happens in a plan.
ghost use Rattle.std.specs.Prelude.{◌≡◌, []};
ghost use Rattle.hsr_plan_text.specs.Fallible.{Gives, GivesAt, at_spot};
ghost use Rattle.hsr_plan_text.specs.declared.fault.Spot.TheVariants as spot;
ghost use Rattle.hsr_plan_text.specs.declared.fault.What.TheVariants.{NoMemory as NoRoom};
ghost use Rattle.hsr_plan_schedule.specs.Events.{event};
ghost use Rattle.hsr_plan_schedule.specs.Moments.{lives, sends};
ghost use Rattle.hsr_plan_schedule.specs.Occasions.{events_and_lives, events_from, events_in, few_events, not_too_many, occasions, room_behind, sends_from};

use crate::changes::each_felt;
use crate::events::event;
use crate::lives::lives;
use crate::occasion::Occasion;
use crate::sends::sends;
use hsr_plan_network::Node;
use hsr_plan_text::{Event, Key, Plan, PlanFault, Refusal, Spot, Stream, What};
use hsr_topology::End;
use std::alloc::Global;

/// The most occasions of a plan.
const MOST: usize = 1 << 20;

/// The most events of a plan.
const EVENT_LIMIT: usize = 16384;

/// A fault with its place.
pub(crate) fn at_spot<T>(spot: Spot, told: Result<T, What>) -> Result<T, PlanFault>
    ensures { result ≡ at_spot spot told }
{
    match told {
        Ok(value) => Ok(value),
        Err(what) => Err(PlanFault { spot, what }),
    }
}

/// The fault of a failed allocation.
fn no_memory_at(spot: Spot) -> PlanFault
    ensures { result ≡ record { spot = spot; what = NoRoom } }
{
    PlanFault {
        spot,
        what: What::NoMemory,
    }
}

/// The event of that number as an occasion.
#[tactic(auto, using(hsr_plan_text::proofs::Lists::spotted))]
fn event_at(
    alloc: Global,
    until: Option<u64>,
    nodes: &[Node],
    links: &[[End; 2]],
    number: usize,
    one: &Event,
) -> Result<Occasion, PlanFault>
    ensures { GivesAt (λ o. o) result (at_spot (spot.Event number)
        (event until nodes.now links.now one.now)) }
{
    at_spot(Spot::Event(number), event(alloc, until, nodes, links, one))
}

/// Events, as they are listed.
#[tactic(auto, using(crate::proofs::Lists::events_step, crate::proofs::Lists::events_fail))]
fn events(
    alloc: Global,
    until: Option<u64>,
    nodes: &[Node],
    links: &[[End; 2]],
    events: &[Event],
) -> Result<Vec<Occasion>, PlanFault>
    ensures { GivesAt (λ v. v.items) result (events_from until nodes.now links.now [] events.now) }
{
    let mut occasions = Vec::new(alloc);
    for event in events.iter() {
        match event_at(alloc, until, nodes, links, occasions.len(), event) {
            Ok(occasion) => {
                let spot = Spot::Event(occasions.len());
                occasions.push(occasion).or(Err(no_memory_at(spot)))?;
            }
            Err(fault) => return Err(fault),
        }
    }
    Ok(occasions)
}

/// All frames of the stream with this number, if there is room for them.
#[tactic(auto, using(hsr_plan_text::proofs::Lists::spotted))]
fn sends_at(
    alloc: Global,
    nodes: &[Node],
    until: Option<u64>,
    room: usize,
    number: usize,
    stream: &Stream,
) -> Result<Vec<Occasion>, PlanFault>
    ensures { GivesAt (λ v. v.items) result
        (at_spot (spot.Stream number) (sends nodes.now until room number stream.now)) }
{
    at_spot(
        Spot::Stream(number),
        sends(alloc, nodes, until, room, number, stream),
    )
}

/// How many more occasions there may be.
fn room_behind(occasions: &[Occasion]) -> usize
    ensures { result ≡ room_behind occasions.now }
{
    // Room that is left when none is left counts as none.
    MOST.saturating_sub(occasions.len())
}

/// The frames of all streams, behind other occasions.
#[tactic(auto, using(crate::proofs::Lists::sends_step, crate::proofs::Lists::sends_fail))]
fn add_sends(
    alloc: Global,
    first: Vec<Occasion>,
    nodes: &[Node],
    until: Option<u64>,
    streams: &[Stream],
) -> Result<Vec<Occasion>, PlanFault>
    ensures { GivesAt (λ v. v.items) result (sends_from nodes.now until first.items 0 streams.now) }
{
    let mut occasions = first;
    for (number, stream) in streams.iter().enumerate() {
        let room = room_behind(occasions.as_slice());
        match sends_at(alloc, nodes, until, room, number, stream) {
            Ok(mut more) => {
                let spot = Spot::Stream(number);
                occasions.append(&mut more).or(Err(no_memory_at(spot)))?;
            }
            Err(fault) => return Err(fault),
        }
    }
    Ok(occasions)
}

/// Refuses more events than each can be compared with.
fn few_events(events: &[Event]) -> Result<(), What>
    ensures { Gives (λ u. u) result (few_events events.now) }
{
    if events.len() <= EVENT_LIMIT {
        Ok(())
    } else {
        Err(What::Refused(Refusal::TooMany(Key::Event)))
    }
}

/// The events of a plan, as they are listed, each of which changes something.
#[tactic(auto, using(hsr_plan_text::proofs::Lists::spotted))]
fn events_in(
    alloc: Global,
    plan: &Plan,
    nodes: &[Node],
    links: &[[End; 2]],
) -> Result<Vec<Occasion>, PlanFault>
    ensures { GivesAt (λ v. v.items) result (events_in plan.now nodes.now links.now) }
{
    // Each event is compared with each, so their number is bounded first.
    at_spot(Spot::Top, few_events(plan.events.as_slice()))?;
    let until = plan.outline.until;
    let occasions = events(alloc, until, nodes, links, plan.events.as_slice())?;
    each_felt(occasions.as_slice())?;
    Ok(occasions)
}

/// The events and the supervision of a plan.
#[tactic(auto, using(hsr_plan_text::proofs::Lists::spotted))]
fn events_and_lives(
    alloc: Global,
    plan: &Plan,
    nodes: &[Node],
    links: &[[End; 2]],
) -> Result<Vec<Occasion>, PlanFault>
    ensures { GivesAt (λ v. v.items) result (events_and_lives plan.now nodes.now links.now) }
{
    let mut occasions = events_in(alloc, plan, nodes, links)?;
    let mut lives = at_spot(Spot::Top, lives(alloc, &plan.outline, nodes))?;
    occasions
        .append(&mut lives)
        .or(Err(no_memory_at(Spot::Top)))?;
    Ok(occasions)
}

/// Refuses more than 2^20 occasions.
fn not_too_many(occasions: Vec<Occasion>) -> Result<Vec<Occasion>, PlanFault>
    ensures { GivesAt (λ v. v.items) result (not_too_many occasions.items) }
{
    if occasions.len() <= MOST {
        Ok(occasions)
    } else {
        Err(PlanFault {
            spot: Spot::Top,
            what: What::Refused(Refusal::TooMany(Key::Stream)),
        })
    }
}

/// All that happens in a plan with these nodes and links: events, supervision, streams, each as they are listed.
pub(crate) fn occasions(
    alloc: Global,
    plan: &Plan,
    nodes: &[Node],
    links: &[[End; 2]],
) -> Result<Vec<Occasion>, PlanFault>
    ensures { GivesAt (λ v. v.items) result (occasions plan.now nodes.now links.now) }
{
    // Supervision of many nodes may be over the bound alone, before any stream.
    let first = not_too_many(events_and_lives(alloc, plan, nodes, links)?)?;
    let until = plan.outline.until;
    add_sends(alloc, first, nodes, until, plan.streams.as_slice())
}
