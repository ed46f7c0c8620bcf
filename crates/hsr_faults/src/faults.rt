//! Each fault of one link or node, and of two.
ghost use Rattle.std.specs.Prelude.{◌≡◌, ◌++◌, length, map, IfOk, OnOk};
ghost use Rattle.hsr_faults.specs.Fault.{faults_of_one, faults_of_two, offs, pairs};
ghost use Rattle.hsr_faults.specs.declared.fault.Fault.TheVariants.{One, Two};

use crate::fault::{Fault, Off};
use hsr_frame::NoMemory;
use hsr_topology::Topology;
use std::alloc::Global;

/// Puts links last, by number.
fn push_links(list: &mut Vec<Off>, links: usize) -> Result<(), NoMemory>
    requires { list.old.items ≡ offs 0 0 }
    ensures { OnOk result (list.new.items ≡ offs links 0) }
{
    for link in 0..links {
        list.push(Off::Link(link))?;
    }
    Ok(())
}

/// Puts nodes last, by number.
fn push_nodes(list: &mut Vec<Off>, links: usize, nodes: usize) -> Result<(), NoMemory>
    requires { list.old.items ≡ offs links 0 }
    ensures { OnOk result (list.new.items ≡ offs links nodes) }
{
    // How many links there are is told to the proof alone.
    let _ = links;
    for node in 0..nodes {
        list.push(Off::Node(node))?;
    }
    Ok(())
}

/// The links and nodes of a topology.
fn offs(alloc: Global, topology: &Topology) -> Result<Vec<Off>, NoMemory>
    ensures { IfOk result (λ list. list.items ≡ offs (length topology.now.links) (length topology.now.places)) }
{
    let mut list = Vec::new(alloc);
    push_links(&mut list, topology.links().len())?;
    push_nodes(&mut list, topology.links().len(), topology.places().len())?;
    Ok(list)
}

/// Each of these off alone.
fn each_of(alloc: Global, offs: &[Off]) -> Result<Vec<Fault>, NoMemory>
    ensures { IfOk result (λ list. list.items ≡ map One offs.now) }
{
    let mut list = Vec::new(alloc);
    for off in offs {
        list.push(Fault::One(*off))?;
    }
    Ok(list)
}

/// Each link of a topology off, by number; then each node. `NoMemory` if allocation fails.
pub fn faults_of_one(alloc: Global, topology: &Topology) -> Result<Vec<Fault>, NoMemory>
    ensures { IfOk result (λ list. list.items ≡ faults_of_one (length topology.now.links) (length topology.now.places)) }
{
    let offs = offs(alloc, topology)?;
    each_of(alloc, offs.as_slice())
}

/// Puts the faults of one link or node with each of these last.
fn push_pairs(list: &mut Vec<Fault>, first: Off, later: &[Off]) -> Result<(), NoMemory>
    ensures { OnOk result (list.new.items ≡ list.old.items ++ map (Two first) later.now) }
{
    for second in later {
        list.push(Fault::Two(first, *second))?;
    }
    Ok(())
}

/// Each two of a topology's links and nodes off: the first by number, links before nodes, with each that is behind it. `NoMemory`
/// if allocation fails.
pub fn faults_of_two(alloc: Global, topology: &Topology) -> Result<Vec<Fault>, NoMemory>
    ensures { IfOk result (λ list. list.items ≡ faults_of_two (length topology.now.links) (length topology.now.places)) }
{
    let offs = offs(alloc, topology)?;
    let mut list = Vec::new(alloc);
    let mut rest = offs.as_slice();
    // What is left is a variable, since the loop's invariant speaks of it.
    while let Some((first, later)) = rest.split_first() {
        push_pairs(&mut list, *first, later)?;
        rest = later;
    }
    Ok(list)
}
