//! What RedBoxes hear of the stations behind them.
//!
//! A RedBox sends supervision about stations that it knows. Here each has a `ProxyTable`, the table of a RedBox
//! itself, so "knows" is its own word, and no step of the scenario is refused for it.
ghost use Rattle.std.specs.Prelude.{◌≡◌, position, slice_get, IfOk, OnOk};
ghost use Rattle.hsr_plan_schedule.specs.Hearing.{begins_at, has_room, heard_on, interlink_to, knows, leads_to, macs_behind, macs_beyond, macs_if, macs_in, nothing_heard, settled, with_known};

use crate::senders::is_own;
use hsr_frame::{Mac, NoMemory};
use hsr_node::Place;
use hsr_plan_network::Node;
use hsr_tables::ProxyTable;
use hsr_topology::End;
use std::alloc::Global;
use std::marker::Model;

/// The port of a RedBox at its interlink.
const INTERLINK: u8 = 2;

/// The frames that wait on interlinks, each by the number of its Station, and what each node knows of stations behind it.
#[derive(Drop)]
pub(crate) struct Heard {
    waits: Vec<usize>,
    known: Vec<ProxyTable>,
}

impl Model for Heard {
    ghost use Rattle.hsr_plan_schedule.specs.Hearing.{Heard};

    ghost Value = { Heard };

    ghost view = { λ h. record { waits = h.waits.items; known = h.known.items } };
}

// ---- interlinks: the links from port I of a RedBox to its Station

/// Whether a link begins at port I of a node.
fn begins_at(node: usize, link: &[End; 2]) -> bool
    ensures { result ≡ begins_at node link.now }
{
    let [first, _] = *link;
    first.port == INTERLINK && first.node == node
}

/// Whether a link is the interlink of a Station.
fn leads_to(station: usize, link: &[End; 2]) -> bool
    ensures { result ≡ leads_to station link.now }
{
    let [first, second] = *link;
    first.port == INTERLINK && second.node == station
}

/// The number of a Station's interlink.
pub(crate) fn interlink_to(links: &[[End; 2]], station: usize) -> Option<usize>
    ensures { result ≡ interlink_to links.now station }
{
    links.iter().position(|link| leads_to(station, link))
}

/// The number of the interlink of a node.
fn interlink_from(links: &[[End; 2]], node: usize) -> Option<usize>
    ensures { result ≡ position (begins_at node) links.now }
{
    links.iter().position(|link| begins_at(node, link))
}

/// The addresses of a kind of node, if that is a Station.
fn macs_in(place: &Place) -> &[Mac]
    ensures { result.now ≡ macs_in place.now }
{
    match place {
        Place::Station { macs } => macs.as_slice(),
        Place::Danh { .. } | Place::RedBox { .. } | Place::QuadBox => &[],
    }
}

/// The addresses of the Station of that number.
fn macs_of(nodes: &[Node], number: usize) -> &[Mac]
    ensures { result.now ≡ macs_if (slice_get nodes.now number) }
{
    match nodes.get(number) {
        Some(node) => macs_in(&node.place),
        None => &[],
    }
}

/// The addresses of the Station at the end of the link of that number.
fn macs_beyond<'a>(nodes: &'a [Node], links: &[[End; 2]], link: usize) -> &'a [Mac]
    ensures { result.now ≡ macs_beyond nodes.now (slice_get links.now link) }
{
    match links.get(link) {
        Some([_, second]) => macs_of(nodes, second.node),
        None => &[],
    }
}

/// The addresses of the stations behind the node of that number.
pub(crate) fn macs_behind<'a>(nodes: &'a [Node], links: &[[End; 2]], node: usize) -> &'a [Mac]
    ensures { result.now ≡ macs_behind nodes.now links.now node }
{
    match interlink_from(links, node) {
        Some(link) => macs_beyond(nodes, links, link),
        None => &[],
    }
}

// ---- what is heard, and known

/// What nodes know that have heard nothing.
fn no_tables(alloc: Global, nodes: &[Node]) -> Result<Vec<ProxyTable>, NoMemory>
    ensures { IfOk result (λ v. v.items ≡ (nothing_heard nodes.now).known) }
{
    let mut tables = Vec::new(alloc);
    for _node in nodes.iter() {
        tables.push(ProxyTable::new())?;
    }
    Ok(tables)
}

/// Hears an address at the node of that number, if it isn't its own.
fn learn(known: &mut [ProxyTable], nodes: &[Node], now: u64, node: usize, mac: Mac)
    ensures { known.new ≡ with_known nodes.now now node mac known.old }
{
    if node < known.len() && !is_own(nodes, node, mac) {
        // A table takes no moment before its last one.
        let at = now.max(known[node].last());
        known[node].learn(mac, at);
    }
}

impl Heard {
    /// Nothing heard by these nodes.
    pub(crate) fn nothing(alloc: Global, nodes: &[Node]) -> Result<Heard, NoMemory>
        ensures { IfOk result (λ h. h ≡ nothing_heard nodes.now) }
    {
        let known = no_tables(alloc, nodes)?;
        Ok(Heard {
            waits: Vec::new(alloc),
            known,
        })
    }

    /// Whether one more frame of that Station can wait, where `capacity` can.
    pub(crate) fn has_room(&self, capacity: usize, station: usize) -> bool
        ensures { result ≡ has_room capacity station self.now }
    {
        // What finds no room on the interlink is lost, and never heard.
        self.waits.iter().filter(|waits| **waits == station).count() < capacity
    }

    /// Hears a station at the end of an interlink.
    pub(crate) fn hear(
        &mut self,
        nodes: &[Node],
        now: u64,
        link: &[End; 2],
        mac: Mac,
    ) -> Result<(), NoMemory>
        ensures { OnOk result (self.new ≡ heard_on nodes.now now link.now mac self.old) }
    {
        let [first, second] = *link;
        self.waits.push(second.node)?;
        learn(self.known.as_mut_slice(), nodes, now, first.node, mac);
        Ok(())
    }

    /// Lets nothing wait any more.
    pub(crate) fn settle(&mut self)
        ensures { self.new ≡ settled self.old }
    {
        // A drain brings all to the RedBox, so all have room again.
        self.waits.clear();
    }

    /// Whether the node of that number knows an address.
    pub(crate) fn knows(&self, now: u64, node: usize, mac: Mac) -> bool
        ensures { result ≡ knows now node mac self.now }
    {
        match self.known.get(node) {
            // A table is asked for no moment before its last one.
            Some(table) => table.knows(mac, now.max(table.last())),
            None => false,
        }
    }
}
