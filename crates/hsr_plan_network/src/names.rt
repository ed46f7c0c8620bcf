//! The names in the rings of a plan.
ghost use Rattle.std.specs.Prelude.{◌≡◌, ◌≤◌, ◌<◌, ◌∷◌, [], length, IfOk, IfSome, OnOk};
ghost use Rattle.hsr_plan_network.specs.Names.{is_in, joined, met, met_first, number, place, ring_with, times_met};

use hsr_frame::NoMemory;
use hsr_plan_text::{Ring, Word};
use std::alloc::Global;

/// Whether a name is among names.
pub fn is_in(name: &[u8], names: &[Word]) -> bool
    ensures { result ≡ is_in name.now names.now }
{
    names.iter().any(|other| other.as_bytes() == name)
}

/// The index of a name among names.
fn place(names: &[Word], name: &[u8]) -> Option<usize>
    ensures value { result ≡ place names.now name.now }
    ensures most { IfSome result (λ k. k < length names.now) }
{
    names.iter().position(|other| other.as_bytes() == name)
}

/// The index of a name among names; 0 where it isn't there.
pub fn number(names: &[Word], name: &[u8]) -> usize
    ensures value { result ≡ number names.now name.now }
    ensures most { result ≤ length names.now }
{
    match place(names, name) {
        Some(place) => place,
        // Total, since callers ask for names that are there: so no proof has to say that again.
        None => 0,
    }
}

/// In how many rings a name is.
pub(crate) fn times_met(rings: &[Ring], name: &[u8]) -> usize
    ensures { result ≡ times_met rings.now name.now }
{
    rings
        .iter()
        .filter(|ring| is_in(name, ring.nodes.as_slice()))
        .count()
}

/// The number of the first ring that has a name.
fn ring_with(rings: &[Ring], name: &[u8]) -> Option<usize>
    ensures { result ≡ ring_with rings.now name.now }
{
    rings
        .iter()
        .position(|ring| is_in(name, ring.nodes.as_slice()))
}

/// The number of the ring in which a name is met first; 0 where it isn't there.
pub(crate) fn met_first(rings: &[Ring], name: &[u8]) -> usize
    ensures { result ≡ met_first rings.now name.now }
{
    match ring_with(rings, name) {
        Some(ring) => ring,
        None => 0,
    }
}

/// Puts a name behind others, if it isn't there.
fn join_one(alloc: Global, seen: &mut Vec<Word>, name: &Word) -> Result<(), NoMemory>
    ensures { OnOk result (seen.new.items ≡ joined seen.old.items (name.now ∷ [])) }
{
    // A QuadBox is in two rings, and is one node.
    if !is_in(name.as_bytes(), seen.as_slice()) {
        let name = name.copy(alloc)?;
        seen.push(name)?;
    }
    Ok(())
}

/// Puts names behind others, without those that are there.
#[tactic(auto, using(crate::proofs::Naming::joined_step))]
fn join(alloc: Global, seen: &mut Vec<Word>, names: &[Word]) -> Result<(), NoMemory>
    ensures { OnOk result (seen.new.items ≡ joined seen.old.items names.now) }
{
    for name in names.iter() {
        join_one(alloc, seen, name)?;
    }
    Ok(())
}

/// The names in rings, each once, where it is met first.
#[tactic(auto, using(crate::proofs::Naming::met_step))]
pub(crate) fn names_of(alloc: Global, rings: &[Ring]) -> Result<Vec<Word>, NoMemory>
    ensures { IfOk result (λ names. names.items ≡ met [] rings.now) }
{
    let mut names = Vec::new(alloc);
    for ring in rings.iter() {
        join(alloc, &mut names, ring.nodes.as_slice())?;
    }
    Ok(names)
}
