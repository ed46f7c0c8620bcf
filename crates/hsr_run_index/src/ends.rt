//! The ends that links join, by an index.
ghost use Rattle.std.specs.Prelude.{◌≡◌, ◌||◌, ℕ, if◌then◌else◌, is_some, Some, None, IfOk, OnOk};
ghost use Rattle.std.specs.Option.{option_or};
ghost use Rattle.hsr_run_index.specs.Indexed.{peer_of};
ghost use Rattle.hsr_run_laws.specs.Run.{joined_by, peer_in};
ghost use Rattle.hsr_topology.specs.Links.{is_end_of, is_same_end, is_used};
ghost use Rattle.hsr_topology.specs.declared.end.End as spec;

use hsr_frame::NoMemory;
use hsr_topology::End;
use indexmap::IndexMap;
use std::alloc::Global;
use std::marker::Model;

/// Links, and for each of their ends the one that it is joined with, by its node and port.
#[derive(Drop)]
pub struct Ends<'a> {
    // Kept for its model: contracts speak of ends by the links that they are of.
    links: &'a [[End; 2]],
    peers: IndexMap<(usize, u8), End>,
}

impl<'a> Model for Ends<'a> {
    ghost use Rattle.std.specs.Prelude.{◌≡◌, List, is_some};
    ghost use Rattle.hsr_run_index.specs.Indexed.{peer_of};
    ghost use Rattle.hsr_run_laws.specs.Run.{peer_in};
    ghost use Rattle.hsr_topology.specs.Links.{is_used};
    ghost use Rattle.hsr_topology.specs.declared.end.End as spec;

    ghost Value = { List (List spec.End) };

    ghost view = { λ e. e.links.now };

    ghost invariant = { λ e.
        ((end : spec.End) → peer_of e.peers end ≡ peer_in end e.links.now)
        × ((end : spec.End) → is_some (peer_of e.peers end) ≡ is_used e.links.now end) };
}

/// The end that an index has for one.
fn peer_of(peers: &IndexMap<(usize, u8), End>, end: End) -> Option<End>
    ensures { result ≡ peer_of peers.now end }
{
    peers.get(&(end.node, end.port)).copied()
}

/// Puts the end that one is joined with, where it has none so far.
fn put_peer(peers: &mut IndexMap<(usize, u8), End>, end: End, other: End) -> Result<(), NoMemory>
    ensures { OnOk result ((e : spec.End) → peer_of peers.new e ≡ option_or (peer_of peers.old e)
        (if is_same_end end e then Some other else None)) }
{
    // The first link counts. In a topology an end is in one link at most.
    if peer_of(peers, end).is_some() {
        return Ok(());
    }
    match peers.insert((end.node, end.port), other) {
        Ok(_) => Ok(()),
        Err(_) => Err(NoMemory),
    }
}

/// Puts both ends of one more link.
#[tactic(auto, using(crate::proofs::Indexing::both_ends, crate::proofs::Indexing::both_joined))]
fn put_link(peers: &mut IndexMap<(usize, u8), End>, link: [End; 2]) -> Result<(), NoMemory>
    ensures peers { OnOk result ((e : spec.End) → peer_of peers.new e
        ≡ option_or (peer_of peers.old e) (joined_by e link)) }
    ensures used { OnOk result ((e : spec.End) → is_some (peer_of peers.new e)
        ≡ (is_some (peer_of peers.old e) || is_end_of e link)) }
{
    let [a, b] = link;
    put_peer(peers, a, b)?;
    put_peer(peers, b, a)?;
    Ok(())
}

/// The index of the ends of links.
#[tactic(auto, using(crate::proofs::Indexing::peers_more, crate::proofs::Indexing::used_more))]
fn peers_of(alloc: Global, links: &[[End; 2]]) -> Result<IndexMap<(usize, u8), End>, NoMemory>
    ensures peers { IfOk result (λ peers. (e : spec.End) → peer_of peers e ≡ peer_in e links.now) }
    ensures used { IfOk result (λ peers. (e : spec.End) → is_some (peer_of peers e)
        ≡ is_used links.now e) }
{
    let mut peers = IndexMap::new(alloc);
    // The index is used by the loop's invariant alone.
    for (i, link) in links.iter().enumerate() {
        put_link(&mut peers, *link)?;
    }
    Ok(peers)
}

impl<'a> Ends<'a> {
    /// The ends of links. `NoMemory` if allocation fails.
    pub fn new(alloc: Global, links: &'a [[End; 2]]) -> Result<Ends<'a>, NoMemory>
        ensures { IfOk result (λ ends. ends ≡ links.now) }
    {
        let peers = peers_of(alloc, links)?;
        Ok(Ends { links, peers })
    }

    /// The end that one of the links joins with this one.
    pub fn peer(&self, end: End) -> Option<End>
        ensures { result ≡ peer_in end self.now }
    {
        peer_of(&self.peers, end)
    }

    /// Whether one of the links has this end.
    pub fn has(&self, end: End) -> bool
        ensures { result ≡ is_used self.now end }
    {
        peer_of(&self.peers, end).is_some()
    }
}
