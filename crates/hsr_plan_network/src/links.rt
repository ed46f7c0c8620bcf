//! The links of a plan.
ghost use Rattle.std.specs.Prelude.{◌≡◌, ◌++◌, ◌+◌, ◌∷◌, [], ◌≤◌, ◌<◌, length, map, IfOk, OnOk};
ghost use Rattle.hsr_plan_network.specs.Links.{end_at, interlink, next, ring_link, ring_links, side};

use crate::names::{met_first, number};
use hsr_frame::NoMemory;
use hsr_plan_text::{Ring, Word};
use hsr_topology::End;
use std::alloc::Global;

/// The first of the two ports of a node in the ring of that number: A (0), or C (2) of a QuadBox in its second ring.
fn side(rings: &[Ring], ring: usize, name: &[u8]) -> u8
    ensures value { result ≡ side rings.now ring name.now }
    ensures most { result ≤ 2 }
{
    // A node begins at A in the ring in which it is met first; a QuadBox at C in its other ring.
    if met_first(rings, name) == ring { 0 } else { 2 }
}

/// The end of a node at that port.
fn end_at(names: &[Word], port: u8, name: &[u8]) -> End
    ensures { result ≡ end_at names.now port name.now }
{
    End {
        node: number(names, name),
        port,
    }
}

/// The name that follows another round a ring; behind the last comes the first.
fn next<'a>(ring: &'a [Word], name: &[u8]) -> &'a [u8]
    requires { 0 < length ring.now }
    ensures { result.now ≡ next ring.now name.now }
{
    match ring.get((number(ring, name) + 1) % ring.len()) {
        Some(next) => next.as_bytes(),
        // Never so: the number is below the length of the ring.
        None => &[],
    }
}

/// The link from a node to the next one round a ring; `number` is the ring's, and `names` are those of all nodes of
/// rings, by their numbers.
#[tactic(auto, unfolding(crate::specs::Links::ring_link))]
fn ring_link(rings: &[Ring], names: &[Word], number: usize, ring: &[Word], name: &[u8]) -> [End; 2]
    requires { 0 < length ring.now }
    ensures { result ≡ ring_link rings.now names.now number ring.now name.now }
{
    let next = next(ring, name);
    [
        // From B (or D) of a node to A (or C) of the next one.
        end_at(names, side(rings, number, name) + 1, name),
        end_at(names, side(rings, number, next), next),
    ]
}

/// Puts the links of a ring behind others: one for each of its nodes, to the next one.
fn add_ring(
    links: &mut Vec<[End; 2]>,
    rings: &[Ring],
    names: &[Word],
    number: usize,
    ring: &[Word],
) -> Result<(), NoMemory>
    ensures { OnOk result (links.new.items
        ≡ links.old.items ++ map (ring_link rings.now names.now number ring.now) ring.now) }
{
    for name in ring.iter() {
        links.push(ring_link(rings, names, number, ring, name.as_bytes()))?;
    }
    Ok(())
}

/// The links of all rings, ring by ring: of each node of a ring the link to the next one. `names` are those of all
/// nodes of rings, by their numbers. `NoMemory` if allocation fails.
#[tactic(auto, using(crate::proofs::Linking::ring_links_step))]
pub(crate) fn ring_links(
    alloc: Global,
    rings: &[Ring],
    names: &[Word],
) -> Result<Vec<[End; 2]>, NoMemory>
    ensures { IfOk result (λ v. v.items ≡ ring_links rings.now names.now 0 rings.now) }
{
    let mut links = Vec::new(alloc);
    for (number, ring) in rings.iter().enumerate() {
        add_ring(&mut links, rings, names, number, ring.nodes.as_slice())?;
    }
    Ok(links)
}

/// The link from a RedBox to its Station.
fn interlink(names: &[Word], boxes: &[Word], name: &[u8]) -> [End; 2]
    ensures { result ≡ interlink names.now boxes.now name.now }
{
    [
        end_at(names, 2, name),
        End {
            // Stations stand behind all nodes of rings, one for each RedBox, in the same order.
            node: names.len() + number(boxes, name),
            port: 0,
        },
    ]
}

/// Puts the interlinks of RedBoxes behind other links, in the order of `boxes`.
pub(crate) fn add_interlinks(
    links: &mut Vec<[End; 2]>,
    names: &[Word],
    boxes: &[Word],
) -> Result<(), NoMemory>
    ensures { OnOk result (links.new.items
        ≡ links.old.items ++ map (interlink names.now boxes.now) boxes.now) }
{
    for name in boxes.iter() {
        links.push(interlink(names, boxes, name.as_bytes()))?;
    }
    Ok(())
}
