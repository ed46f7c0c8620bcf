//! The events of a plan as occasions.
ghost use Rattle.std.specs.Prelude.{◌≡◌, Err, position, slice_get};
ghost use Rattle.hsr_plan_text.specs.Fallible.{Gives};
ghost use Rattle.hsr_plan_text.specs.declared.fault.What.TheVariants.{Refused};
ghost use Rattle.hsr_plan_schedule.specs.Events.{asked, event, fits, happening_of, in_time, joins, link_between, no_node, node, port, port_at, port_fits};

use crate::occasion::{Happening, Occasion};
use crate::senders::{named, no_such_name, station_of};
use hsr_plan_network::Node;
use hsr_plan_text::{Deed, Event, Key, LinkEnd, Refusal, What, Word};
use hsr_topology::End;
use std::alloc::Global;

/// An end that is asked for: a node, and one of its ports or any.
#[derive(Clone, Copy)]
struct Asked {
    node: usize,
    port: Option<u8>,
}

/// The fault of a name that no node has.
fn no_node(alloc: Global, nodes: &[Node], name: &[u8]) -> Result<usize, What>
    ensures { Gives (λ k. k) result (Err (Refused (no_node nodes.now name.now))) }
{
    let word = Word::of(alloc, name)?;
    match station_of(nodes, name) {
        // A station's name is there, but stands for no node that can be cut off or set on.
        Some(_) => Err(What::Refused(Refusal::OfStation(word))),
        None => Err(What::Refused(Refusal::NoSuchName(word))),
    }
}

/// The number of the node that has the name.
fn node(alloc: Global, nodes: &[Node], name: &[u8]) -> Result<usize, What>
    ensures { Gives (λ k. k) result (node nodes.now name.now) }
{
    match named(nodes, name) {
        Some(number) => Ok(number),
        None => no_node(alloc, nodes, name),
    }
}

/// The port of that letter, of the node of that number.
fn port_at(nodes: &[Node], number: usize, letter: u8) -> Option<u8>
    ensures { result ≡ port_at (slice_get nodes.now number) letter }
{
    match nodes.get(number) {
        Some(node) => node.place.port(letter),
        None => None,
    }
}

/// Any port, or the port of a letter, of the node of that number and name.
fn port(
    alloc: Global,
    nodes: &[Node],
    number: usize,
    letter: Option<u8>,
    name: &[u8],
) -> Result<Option<u8>, What>
    ensures { Gives (λ p. p) result (port nodes.now number letter name.now) }
{
    match letter {
        None => Ok(None),
        Some(letter) => match port_at(nodes, number, letter) {
            Some(port) => Ok(Some(port)),
            None => no_such_name(alloc, name),
        },
    }
}

/// The end that a plan asks for.
fn asked_end(alloc: Global, nodes: &[Node], end: &LinkEnd) -> Result<Asked, What>
    ensures { Gives (λ a. a) result (asked nodes.now end.now) }
{
    let node = node(alloc, nodes, end.name.as_bytes())?;
    let port = port(alloc, nodes, node, end.letter, end.name.as_bytes())?;
    Ok(Asked { node, port })
}

/// Whether an end is the one that is asked for.
fn fits(asked: Asked, end: End) -> bool
    ensures { result ≡ fits asked end }
{
    asked.node == end.node
        && match asked.port {
            None => true,
            Some(port) => port == end.port,
        }
}

/// Whether a link joins two ends that are asked for.
fn joins(first: Asked, second: Asked, link: &[End; 2]) -> bool
    ensures { result ≡ joins first second link.now }
{
    let [one, other] = *link;
    // Ends are said in either order.
    (fits(first, one) && fits(second, other)) || (fits(first, other) && fits(second, one))
}

/// The number of the first link that joins two ends.
fn first_between(links: &[[End; 2]], first: Asked, second: Asked) -> Option<usize>
    ensures { result ≡ position (joins first second) links.now }
{
    links.iter().position(|link| joins(first, second, link))
}

/// The first link that joins two ends.
fn link_between(
    alloc: Global,
    key: Key,
    nodes: &[Node],
    links: &[[End; 2]],
    first: &LinkEnd,
    second: &LinkEnd,
) -> Result<usize, What>
    ensures { Gives (λ l. l) result (link_between key nodes.now links.now first.now second.now) }
{
    let first = asked_end(alloc, nodes, first)?;
    let second = asked_end(alloc, nodes, second)?;
    match first_between(links, first, second) {
        Some(link) => Ok(link),
        None => Err(What::Refused(Refusal::NoLink(key))),
    }
}

/// What happens in an event.
fn happening_of(
    alloc: Global,
    nodes: &[Node],
    links: &[[End; 2]],
    deed: &Deed,
) -> Result<Happening, What>
    ensures { Gives (λ w. w) result (happening_of nodes.now links.now deed.now) }
{
    match deed {
        Deed::Cut { first, second } => {
            let link = link_between(alloc, Key::Cut, nodes, links, first, second)?;
            Ok(Happening::Cut { link })
        }
        Deed::Mend { first, second } => {
            let link = link_between(alloc, Key::Mend, nodes, links, first, second)?;
            Ok(Happening::Mend { link })
        }
        Deed::Off(name) => {
            let node = node(alloc, nodes, name.as_bytes())?;
            Ok(Happening::Off { node })
        }
        Deed::On(name) => {
            let node = node(alloc, nodes, name.as_bytes())?;
            Ok(Happening::On { node })
        }
    }
}

/// Whether a moment isn't behind the end of the plan.
fn in_time(until: Option<u64>, at: u64) -> bool
    ensures { result ≡ in_time until at }
{
    match until {
        None => true,
        // An event at the end itself still counts, unlike a start.
        Some(until) => at <= until,
    }
}

/// An event as an occasion.
pub(crate) fn event(
    alloc: Global,
    until: Option<u64>,
    nodes: &[Node],
    links: &[[End; 2]],
    one: &Event,
) -> Result<Occasion, What>
    ensures { Gives (λ o. o) result (event until nodes.now links.now one.now) }
{
    let what = happening_of(alloc, nodes, links, &one.deed)?;
    if !in_time(until, one.at) {
        return Err(What::Refused(Refusal::TooLate(Key::At)));
    }
    Ok(Occasion { at: one.at, what })
}
