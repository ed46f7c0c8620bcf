//! The panels of a topology.
ghost use Rattle.std.specs.Prelude.{◌≡◌, ◌<◌, ◌++◌, ◌∷◌, [], ℕ, length, slice_set, slice_index_or, true, false, if◌then◌else◌, not, IfOk, MatchOption, OnOk};
ghost use Rattle.std.specs.List.{AllByRecursion, list_any};
ghost use Rattle.hsr_diagram.specs.Free.{AreLeft, AreTaken, IsNoneFree};
ghost use Rattle.hsr_diagram.specs.Panels.{AreOnce, ArePanels, IsChain, IsLaneOf, IsPanel, is_end_at, is_linked, lone, lone_below};

use crate::panel::{Lane, Panel};
use crate::ways::{first_lane, free_behind};
use hsr_frame::NoMemory;
use hsr_topology::{End, Topology};
use std::alloc::Global;

/// Puts a lane last; its link is then no longer free.
fn put(lanes: &mut Vec<Lane>, free: &mut Vec<bool>, lane: Lane) -> Result<(), NoMemory>
    requires { lane.link < length free.old.items }
    ensures lanes { OnOk result (lanes.new.items ≡ lanes.old.items ++ lane ∷ []) }
    ensures free { OnOk result (free.new.items ≡ slice_set free.old.items lane.link false) }
{
    lanes.push(lane)?;
    free[lane.link] = false;
    Ok(())
}

/// A lane and all that go on from it while their links are free.
#[tactic(auto, using(crate::proofs::Freeing::chain_more, crate::proofs::Freeing::end_more, crate::proofs::Freeing::taken_first, crate::proofs::Freeing::taken_more, crate::proofs::Freeing::within))]
fn row(
    alloc: Global,
    topology: &Topology,
    free: &mut Vec<bool>,
    first: Lane,
) -> Result<Vec<Lane>, NoMemory>
    requires lane { IsLaneOf topology.now.links first }
    requires free { slice_index_or free.old.items first.link false ≡ true }
    ensures chain { IfOk result (λ lanes. IsChain topology.now.links first.left.node lanes.items) }
    ensures taken { IfOk result (λ lanes. AreTaken free.old.items lanes.items free.new.items) }
{
    let mut lanes = Vec::new(alloc);
    put(&mut lanes, free, first)?;
    let mut last = first;
    // A loop with a bound has an end by its form. Its own end is never reached: each turn takes a free link.
    for _ in 0..u64::MAX {
        match free_behind(topology, free.as_slice(), last) {
            Some(next) => {
                put(&mut lanes, free, next)?;
                last = next;
            }
            None => return Ok(lanes),
        }
    }
    Err(NoMemory)
}

/// The first link that is free.
fn first_free(free: &[bool]) -> Option<usize>
    ensures { MatchOption result (IsNoneFree free.now) (λ link. slice_index_or free.now link false
        ≡ true) }
{
    free.iter().position(|is_free| *is_free)
}

/// As many links, all free.
#[tactic(auto, using(crate::proofs::Freeing::free_all))]
fn all_free(alloc: Global, count: usize) -> Result<Vec<bool>, NoMemory>
    ensures { IfOk result (λ free. AreLeft count [] free.items) }
{
    Ok(vec![in alloc; true; count]?)
}

/// Puts a panel last.
fn add(panels: &mut Vec<Panel>, first: usize, lanes: Vec<Lane>) -> Result<(), NoMemory>
    ensures { OnOk result (panels.new.items ≡ panels.old.items
        ++ record { first = first; lanes = lanes.items } ∷ []) }
{
    panels.push(Panel { first, lanes })?;
    Ok(())
}

/// The panels of all links.
#[tactic(auto, using(crate::proofs::Freeing::left_below, crate::proofs::Freeing::left_more, crate::proofs::Freeing::left_none, crate::proofs::Freeing::panels_more))]
fn joined(alloc: Global, topology: &Topology) -> Result<Vec<Panel>, NoMemory>
    ensures chains { IfOk result (λ panels.
        AllByRecursion (IsPanel topology.now.links) panels.items) }
    ensures once { IfOk result (λ panels. AreOnce (length topology.now.links) panels.items) }
{
    let mut free = all_free(alloc, topology.links().len())?;
    let mut panels = Vec::new(alloc);
    // A loop with a bound has an end by its form. Its own end is never reached: each turn takes a free link.
    for _ in 0..u64::MAX {
        let Some(link) = first_free(free.as_slice()) else {
            return Ok(panels);
        };
        let first = first_lane(topology, free.as_slice(), link);
        let lanes = row(alloc, topology, &mut free, first)?;
        add(&mut panels, first.left.node, lanes)?;
    }
    Err(NoMemory)
}

/// Whether a link has an end at a node.
fn is_at(link: &[End; 2], node: usize) -> bool
    ensures { result ≡ list_any (is_end_at node) link.now }
{
    let [a, b] = *link;
    a.node == node || b.node == node
}

/// Whether a node has a link.
fn is_linked(links: &[[End; 2]], node: usize) -> bool
    ensures { result ≡ is_linked links.now node }
{
    links.iter().any(|link| is_at(link, node))
}

/// Puts a panel of a node alone last, if it has no link.
fn add_if(alloc: Global, panels: &mut Vec<Panel>, node: usize, alone: bool) -> Result<(), NoMemory>
    ensures { OnOk result (panels.new.items ≡ panels.old.items
        ++ (if alone then lone node ∷ [] else [])) }
{
    if alone {
        add(panels, node, Vec::new(alloc))?;
    }
    Ok(())
}

/// Puts a panel last for each node without a link.
fn put_lone(alloc: Global, topology: &Topology, panels: &mut Vec<Panel>) -> Result<(), NoMemory>
    ensures { OnOk result (panels.new.items ≡ panels.old.items ++ lone_below topology.now.links
        (length topology.now.places)) }
{
    let links = topology.links();
    for node in 0..topology.places().len() {
        add_if(alloc, panels, node, !is_linked(links, node))?;
    }
    Ok(())
}

/// The panels of a topology: rings, rows of nodes, and interlinks, each link once in one of them; a node on two rings
/// stands in both their panels. Each node without a link has a panel of its own. `NoMemory` if allocation fails.
pub fn panels(alloc: Global, topology: &Topology) -> Result<Vec<Panel>, NoMemory>
    ensures { IfOk result (λ panels. ArePanels topology.now panels.items) }
{
    let mut panels = joined(alloc, topology)?;
    put_lone(alloc, topology, &mut panels)?;
    Ok(panels)
}
