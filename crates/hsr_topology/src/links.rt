//! What the links of a topology may be.
ghost use Rattle.std.specs.Prelude.{◌≡◌, []};
ghost use Rattle.hsr_topology.specs.Links.{is_end_of, is_used, link_from, link_fault, links_fault};

use crate::end::{End, faces_wrongly, has_port, is_same_end};
use crate::fault::TopologyFault;
use hsr_node::Place;

/// Whether a link has this end.
fn is_end_of(end: End, link: [End; 2]) -> bool
    ensures { result ≡ is_end_of end link }
{
    let [a, b] = link;
    is_same_end(end, a) || is_same_end(end, b)
}

/// Whether one of the links has this end.
pub fn is_used(links: &[[End; 2]], end: End) -> bool
    ensures { result ≡ is_used links.now end }
{
    links.iter().any(|link| is_end_of(end, *link))
}

/// The first thing that is wrong with a link that follows others.
fn link_fault(places: &[Place], earlier: &[[End; 2]], link: [End; 2]) -> Option<TopologyFault>
    ensures { result ≡ link_fault places.now earlier.now link }
{
    let [a, b] = link;
    // The order is that of the faults' numbers (RULES, Links and topologies).
    if !has_port(places, a) || !has_port(places, b) {
        return Some(TopologyFault::NoSuchPort);
    }
    if is_used(earlier, a) || is_used(earlier, b) || is_same_end(b, a) {
        return Some(TopologyFault::PortTwice);
    }
    if a.node == b.node || faces_wrongly(places, a, b) || faces_wrongly(places, b, a) {
        return Some(TopologyFault::WrongPeer);
    }
    None
}

/// The first thing that is wrong with the first link that has a fault.
pub(crate) fn links_fault(places: &[Place], links: &[[End; 2]]) -> Option<TopologyFault>
    ensures { result ≡ links_fault places.now [] links.now }
{
    for (i, link) in links.iter().enumerate() {
        // A link is judged against earlier ones alone, so the fault is that of the second of two that share a port.
        if let Some(fault) = link_fault(places, &links[..i], *link) {
            return Some(fault);
        }
    }
    None
}

/// The number of the first link that has this end, and whether it is the link's first end.
pub(crate) fn link_at(links: &[[End; 2]], end: End) -> Option<(usize, bool)>
    ensures { result ≡ link_from 0 links.now end }
{
    for (i, link) in links.iter().enumerate() {
        let [a, b] = *link;
        if is_same_end(end, a) {
            return Some((i, true));
        }
        if is_same_end(end, b) {
            return Some((i, false));
        }
    }
    None
}
