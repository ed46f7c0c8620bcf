//! Which nodes there are, and how their ports are joined.
ghost use Rattle.std.specs.Prelude.{◌≡◌, ◌↔◌, false, IfOk, IfNone, IfSome, IsOk};
ghost use Rattle.hsr_topology.specs.Links.{is_used, link_from};
ghost use Rattle.hsr_topology.specs.Topology.{made, topology_fault};
ghost use Rattle.hsr_topology.specs.Wired.{EndsLeadBack, IsLinkOf, IsWired};

use crate::end::End;
use crate::fault::TopologyFault;
use crate::links::{link_at, links_fault};
use crate::nodes::has_bad_node;
use hsr_frame::NoMemory;
use hsr_node::Place;
use std::marker::Model;

/// The most nodes that a topology has.
const NODE_LIMIT: usize = 64;

/// The most links that a topology has.
const LINK_LIMIT: usize = 128;

/// Nodes, and the links that join their ports. Nodes and links have numbers from 0, by their places in the lists. No
/// node has the address of a group, a Station has its addresses once each and one at least; a link joins ports that are
/// there, of two nodes, no port has two links, and what faces an interlink is a Station. A port may have no link.
#[derive(Drop)]
pub struct Topology {
    places: Vec<Place>,
    links: Vec<[End; 2]>,
}

impl Model for Topology {
    ghost use Rattle.std.specs.Prelude.{◌≡◌, None};
    ghost use Rattle.hsr_topology.specs.Topology.{Topology, topology_fault};

    ghost Value = { Topology };

    ghost view = { λ t. record { places = t.places.items; links = t.links.items } };

    ghost invariant = { λ t. topology_fault t.places.items t.links.items ≡ None };
}

/// The first reason why nodes and links do not form a valid topology.
#[tactic(auto, unfolding(crate::specs::Topology::topology_fault))]
fn topology_fault(places: &[Place], links: &[[End; 2]]) -> Option<TopologyFault>
    ensures { result ≡ topology_fault places.now links.now }
{
    // The counts come first: so few nodes and links are compared each with each.
    if places.len() > NODE_LIMIT || links.len() > LINK_LIMIT {
        return Some(TopologyFault::TooMany);
    }
    if has_bad_node(places) {
        return Some(TopologyFault::BadNode);
    }
    links_fault(places, links)
}

impl Topology {
    /// The topology of these nodes and links. `TooMany` over 64 nodes or 128 links; then `BadNode` where a node has the
    /// address of a group, or a Station has no address, or one twice; then link by link `NoSuchPort`, `PortTwice` and
    /// `WrongPeer`.
    pub fn new(places: Vec<Place>, links: Vec<[End; 2]>) -> Result<Topology, TopologyFault>
        ensures exact { result ≡ made places.items links.items }
        ensures sound { IsOk result ↔ IsWired places.items links.items }
    {
        match topology_fault(places.as_slice(), links.as_slice()) {
            Some(fault) => Err(fault),
            None => Ok(Topology { places, links }),
        }
    }

    /// The nodes that the topology was made of.
    #[tactic(auto, using(crate::proofs::Wired::wired))]
    pub fn places(&self) -> &[Place]
        ensures value { result.now ≡ self.now.places }
        ensures wired { IsWired self.now.places self.now.links }
    {
        self.places.as_slice()
    }

    /// The links that the topology was made of.
    #[tactic(auto, using(crate::proofs::Wired::wired))]
    pub fn links(&self) -> &[[End; 2]]
        ensures value { result.now ≡ self.now.links }
        ensures wired { IsWired self.now.places self.now.links }
    {
        self.links.as_slice()
    }

    /// The link of a port, by its number, and whether the port is its first end; `None` for a port without a link, or
    /// that isn't there.
    /// A search over all links, of which there are 128 at most.
    #[tactic(auto, using(crate::proofs::Lookup::is_link_of, crate::proofs::Lookup::none_from))]
    pub fn link_at(&self, end: End) -> Option<(usize, bool)>
        ensures exact { result ≡ link_from 0 self.now.links end }
        ensures found { IfSome result (λ at. IsLinkOf self.now.links end at) }
        ensures none { IfNone result (is_used self.now.links end ≡ false) }
        ensures back { EndsLeadBack self.now.links }
    {
        link_at(self.links.as_slice(), end)
    }

    /// An equal topology; `NoMemory` where its allocation fails.
    pub fn copy(&self) -> Result<Topology, NoMemory>
        ensures { IfOk result (λ topology. topology ≡ self.now) }
    {
        // A call of our own in place of a derived `Clone`: its clause says that the copy is equal.
        let places = self.places.clone()?;
        let links = self.links.clone()?;
        Ok(Topology { places, links })
    }
}
