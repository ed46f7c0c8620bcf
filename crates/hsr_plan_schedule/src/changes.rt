//! Events that change something.
//!
//! A mend or an on that changes nothing is a fault: its planner has named another link, or another moment. A cut or
//! an off isn't, since sweeps cut links that the plan cuts too.
ghost use Rattle.std.specs.Prelude.{◌≡◌, ◌<◌, ◌+◌, ◌≤◌, length};
ghost use Rattle.hsr_plan_text.specs.Fallible.{GivesAt, at_spot};
ghost use Rattle.hsr_plan_text.specs.declared.fault.Refusal.TheVariants.{Idle as IsIdle};
ghost use Rattle.hsr_plan_text.specs.declared.fault.Spot.TheVariants as spot;
ghost use Rattle.hsr_plan_network.specs.Checks.{unless_held};
ghost use Rattle.hsr_plan_schedule.specs.Changes.{done_to, each_felt, idle_key, is_before, is_down, is_felt, is_no_earlier, last_before, last_of, later};
ghost use Rattle.hsr_plan_schedule.specs.declared.occasion.Happening.TheVariants as happening;

use crate::occasion::{Happening, Occasion};
use hsr_plan_text::{Key, PlanFault, Refusal, Spot, What};

// ---- what was done last to what is mended or set on

/// When something was done last to a link or a node, and whether it is down since.
#[derive(Clone, Copy)]
struct Last {
    at: u64,
    is_down: bool,
}

/// Whether a link is down behind an event, if that is about it.
fn done_to_link(link: usize, other: &Happening) -> Option<bool>
    ensures { result ≡ done_to (happening.Mend link) other.now }
{
    match other {
        Happening::Cut { link: one } if link == *one => Some(true),
        Happening::Mend { link: one } if link == *one => Some(false),
        _ => None,
    }
}

/// Whether a node is down behind an event, if that is about it.
fn done_to_node(node: usize, other: &Happening) -> Option<bool>
    ensures { result ≡ done_to (happening.On node) other.now }
{
    match other {
        Happening::Off { node: one } if node == *one => Some(true),
        Happening::On { node: one } if node == *one => Some(false),
        _ => None,
    }
}

/// Whether the link that is mended, or the node that is set on, is down behind another event, if that is about it.
fn done_to(what: &Happening, other: &Happening) -> Option<bool>
    ensures { result ≡ done_to what.now other.now }
{
    match what {
        Happening::Mend { link } => done_to_link(*link, other),
        Happening::On { node } => done_to_node(*node, other),
        _ => None,
    }
}

/// Whether a moment is before another, or at it where that is asked too.
fn is_before(now: u64, too: bool, at: u64) -> bool
    ensures { result ≡ is_before now too at }
{
    at < now || (too && at == now)
}

/// Whether a moment isn't before that of the last one.
fn is_no_earlier(last: Option<Last>, at: u64) -> bool
    ensures { result ≡ is_no_earlier last at }
{
    match last {
        None => true,
        // Of two at one moment the one that is listed later is the last.
        Some(last) => last.at <= at,
    }
}

/// The later of what was done last and the next, if that comes before a moment and is about the same.
fn later(now: u64, too: bool, what: &Happening, last: Option<Last>, next: &Occasion) -> Option<Last>
    ensures { result ≡ later now too what.now last next.now }
{
    let counts = is_before(now, too, next.at) && is_no_earlier(last, next.at);
    match done_to(what, &next.what) {
        Some(is_down) if counts => Some(Last {
            at: next.at,
            is_down,
        }),
        _ => last,
    }
}

/// The last of these by its moment, or else the one before.
#[tactic(auto, using(crate::proofs::Lists::last_step))]
fn last_of(
    now: u64,
    too: bool,
    what: &Happening,
    before: Option<Last>,
    occasions: &[Occasion],
) -> Option<Last>
    ensures { result ≡ last_of now too what.now before occasions.now }
{
    let mut last = before;
    for next in occasions.iter() {
        last = later(now, too, what, last, next);
    }
    last
}

/// What was done last before the event of that number to what it is about.
fn last_before(all: &[Occasion], number: usize, event: &Occasion) -> Option<Last>
    requires { number < length all.now }
    ensures { result ≡ last_before all.now number event.now }
{
    // Of one moment the events before this one count, and those behind it don't: they happen as they are listed.
    let before = last_of(event.at, true, &event.what, None, &all[..number]);
    last_of(event.at, false, &event.what, before, &all[number + 1..])
}

// ---- what changes something

/// Whether it is down.
fn is_down(last: Option<Last>) -> bool
    ensures { result ≡ is_down last }
{
    match last {
        // All links are up and all nodes on at first.
        None => false,
        Some(last) => last.is_down,
    }
}

/// Whether the event of that number changes something.
fn is_felt(all: &[Occasion], number: usize, event: &Occasion) -> bool
    requires { number < length all.now }
    ensures { result ≡ is_felt event.now.what (last_before all.now number event.now) }
{
    match event.what {
        Happening::Mend { .. } | Happening::On { .. } => is_down(last_before(all, number, event)),
        // A cut or an off is never idle, so that a sweep's variant isn't refused for one.
        _ => true,
    }
}

/// The key of an event that changes nothing.
fn idle_key(what: &Happening) -> Key
    ensures { result ≡ idle_key what.now }
{
    match what {
        Happening::On { .. } => Key::On,
        _ => Key::Mend,
    }
}

/// Refuses the event of that number, unless it changes something.
fn felt_at(all: &[Occasion], number: usize, event: &Occasion) -> Result<(), PlanFault>
    requires { number < length all.now }
    ensures { GivesAt (λ u. u) result (at_spot (spot.Event number)
        (unless_held (is_felt event.now.what (last_before all.now number event.now))
        (IsIdle (idle_key event.now.what)))) }
{
    if is_felt(all, number, event) {
        return Ok(());
    }
    Err(PlanFault {
        spot: Spot::Event(number),
        what: What::Refused(Refusal::Idle(idle_key(&event.what))),
    })
}

/// Refuses events of which one changes nothing.
#[tactic(auto, using(crate::proofs::Lists::felt_step, crate::proofs::Lists::felt_fail))]
pub(crate) fn each_felt(events: &[Occasion]) -> Result<(), PlanFault>
    ensures { GivesAt (λ u. u) result (each_felt events.now 0 events.now) }
{
    for (number, event) in events.iter().enumerate() {
        match felt_at(events, number, event) {
            Ok(()) => {}
            Err(fault) => return Err(fault),
        }
    }
    Ok(())
}
