//! What a fault cuts off.
ghost use Rattle.std.specs.Prelude.{◌≡◌, cond, ◌==◌, ◌<◌, ◌≤◌, ◌*◌, ◌/◌, ◌&&◌, not, ℕ, Bool, true, false, List, length, count_by, IfOk, IsTrue, OnOk, ◌+◌, ◌↔◌};
ghost use Rattle.hsr_bitset.specs.Numbers.{has, has_bit};
ghost use Rattle.hsr_routes.specs.Numbered.{is_in};
ghost use Rattle.hsr_routes.specs.Routes.{bare};
ghost use Rattle.hsr_faults.specs.Course.{AreCourses, IsCourse};
ghost use Rattle.hsr_faults.specs.CutOff.{AreCutOffBy, AreCuts, IsListed, is_cut, is_of};
ghost use Rattle.hsr_faults.specs.Fault.{is_link_off, is_node_off};
ghost use Rattle.hsr_faults.specs.Lines.{AreCutsBelow, AreLined, AreMissed, told_of};
ghost use Rattle.hsr_faults.specs.Search.{AreInto, AreLedBy};

use crate::channels::Channels;
use crate::course::Course;
use crate::downs::put_link;
use crate::fault::Fault;
use crate::groups::Group;
use crate::nodes::Nodes;
use crate::search::led_to;
use hsr_frame::NoMemory;
use hsr_topology::{End, Topology};
use std::alloc::Global;

/// Sends of one node that are cut off from the same nodes, and how many they are.
#[derive(Clone, Copy, PartialEq, Eq)]
pub struct Cut {
    pub sender: usize,
    pub nodes: Nodes,
    pub sends: usize,
}

/// What a fault cuts off, in the order of the first sends that are cut off so; and how many sends in all.
#[derive(Drop)]
pub struct Outage {
    pub fault: Fault,
    pub cuts: Vec<Cut>,
    pub sends: usize,
}

/// The channels and nodes that are off by a fault.
#[derive(Clone, Copy)]
pub(crate) struct Shut {
    channels: Channels,
    nodes: Nodes,
}

/// The channels of the links that are off.
fn shut_channels(links: &[[End; 2]], fault: Fault) -> Channels
    requires { length links.now ≤ 128 }
    ensures { (n : ℕ) → n < 2 * length links.now → has result.words n ≡ is_link_off links.now fault (n / 2) }
{
    let mut set = Channels::new();
    for link in 0..links.len() {
        put_link(&mut set, link, fault.is_link_off(links, link));
    }
    set
}

/// The nodes that are off.
fn shut_nodes(fault: Fault) -> Nodes
    ensures { (k : ℕ) → k < 64 → has_bit result.bits k ≡ is_node_off fault k }
{
    let mut nodes = Nodes::new();
    for node in 0..64 {
        nodes.put(node, fault.is_node_off(node));
    }
    nodes
}

/// The nodes that routes of a group's sends lead to where some channels are off, too.
fn led(
    topology: &Topology,
    into: &[Channels],
    group: &Group,
    course: &Course,
    off: &Channels,
) -> Nodes
    requires into { AreInto (bare topology.now.places topology.now.links) into.now }
    requires course { IsCourse (bare topology.now.places topology.now.links) group.now course.now }
    ensures { AreLedBy (bare topology.now.places topology.now.links) group.now.frame group.now.down.words off.now.words result.bits }
{
    // While all that is off is spare, routes lead to the same nodes.
    if off.is_within(&course.spare) {
        course.led
    } else {
        led_to(
            topology,
            into,
            &group.frame,
            &course.onward,
            &group.down.with(off),
        )
    }
}

/// The nodes that a group's sends are cut off from.
fn missed(
    topology: &Topology,
    into: &[Channels],
    group: &Group,
    course: &Course,
    fault: Fault,
    shut: &Shut,
) -> Nodes
    requires into { AreInto (bare topology.now.places topology.now.links) into.now }
    requires course { IsCourse (bare topology.now.places topology.now.links) group.now course.now }
    requires channels { (n : ℕ) → n < 2 * length topology.now.links → has shut.now.channels.words n ≡ is_link_off topology.now.links fault (n / 2) }
    requires nodes { (k : ℕ) → k < 64 → has_bit shut.now.nodes.bits k ≡ is_node_off fault k }
    ensures { AreCutOffBy (bare topology.now.places topology.now.links) group.now.frame (is_in group.now.down.words) fault result.bits }
{
    if fault.is_node_off(group.frame.sender) {
        return Nodes::new();
    }
    let led = led(topology, into, group, course, &shut.channels);
    course.due.without(led).without(shut.nodes)
}

/// The nodes that the sends of each group are cut off from. `NoMemory` if allocation fails.
pub(crate) fn all_missed(
    alloc: Global,
    topology: &Topology,
    into: &[Channels],
    groups: &[Group],
    courses: &[Course],
    fault: Fault,
) -> Result<Vec<Nodes>, NoMemory>
    requires into { AreInto (bare topology.now.places topology.now.links) into.now }
    requires courses { AreCourses (bare topology.now.places topology.now.links) groups.now (length groups.now) courses.now }
    ensures { IfOk result (λ all. AreMissed (bare topology.now.places topology.now.links) fault groups.now (length groups.now) all.items) }
{
    let shut = Shut {
        channels: shut_channels(topology.links(), fault),
        nodes: shut_nodes(fault),
    };
    let mut all = Vec::new(alloc);
    for (i, group) in groups.iter().enumerate() {
        all.push(missed(topology, into, group, &courses[i], fault, &shut))?;
    }
    Ok(all)
}

/// A number where it is to be counted, else 0.
fn if_one(is_one: bool, number: usize) -> usize
    ensures { result ≡ cond is_one number 0 }
{
    if is_one { number } else { 0 }
}

/// Whether a group's sends are of this node and cut off from just these nodes.
fn is_alike(group: &Group, missed: Nodes, sender: usize, nodes: Nodes) -> bool
    ensures { result ≡ is_of sender nodes.bits (record { sender = group.now.frame.sender; nodes = missed.bits }) }
{
    group.frame.sender == sender && missed.is_same(nodes)
}

/// How many sends of a node are cut off from just these nodes.
fn alike(
    groups: &[Group],
    of: &[usize],
    counts: &[usize],
    missed: &[Nodes],
    sender: usize,
    nodes: Nodes,
) -> usize
    requires { AreLined groups.now of.now counts.now missed.now }
    ensures { result ≡ count_by (is_of sender nodes.bits) (told_of groups.now missed.now of.now) }
{
    // Of which group each send is the proof alone needs.
    let _ = of;
    let mut sends = 0;
    for (j, group) in groups.iter().enumerate() {
        sends += if_one(is_alike(group, missed[j], sender, nodes), counts[j]);
    }
    sends
}

/// How many sends are cut off from some node.
fn all_cut(groups: &[Group], of: &[usize], counts: &[usize], missed: &[Nodes]) -> usize
    requires { AreLined groups.now of.now counts.now missed.now }
    ensures { result ≡ count_by is_cut (told_of groups.now missed.now of.now) }
{
    // As above.
    let _ = groups;
    let _ = of;
    let mut sends = 0;
    for (j, nodes) in missed.iter().enumerate() {
        sends += if_one(!nodes.is_empty(), counts[j]);
    }
    sends
}

/// Whether sends of a node that are cut off from just these nodes are listed.
fn is_listed(cuts: &[Cut], sender: usize, nodes: Nodes) -> bool
    ensures { IsTrue result ↔ IsListed cuts.now sender nodes.bits }
{
    for (at, cut) in cuts.iter().enumerate() {
        if cut.sender == sender && cut.nodes == nodes {
            return true;
        }
    }
    false
}

/// Puts the sends like those of one more group last, if these are cut off from some node and aren't listed.
fn push_cut(
    cuts: &mut Vec<Cut>,
    groups: &[Group],
    of: &[usize],
    counts: &[usize],
    missed: &[Nodes],
    j: usize,
) -> Result<(), NoMemory>
    requires lined { AreLined groups.now of.now counts.now missed.now }
    requires group { j < length groups.now }
    requires below { AreCutsBelow groups.now of.now missed.now j cuts.old.items }
    ensures { OnOk result (AreCutsBelow groups.now of.now missed.now (j + 1) cuts.new.items) }
{
    let sender = groups[j].frame.sender;
    let nodes = missed[j];
    if !nodes.is_empty() && !is_listed(cuts.as_slice(), sender, nodes) {
        let sends = alike(groups, of, counts, missed, sender, nodes);
        cuts.push(Cut {
            sender,
            nodes,
            sends,
        })?;
    }
    Ok(())
}

/// What is cut off, where the sends of each group are cut off from these nodes. `NoMemory` if allocation fails.
pub(crate) fn told(
    alloc: Global,
    fault: Fault,
    groups: &[Group],
    of: &[usize],
    counts: &[usize],
    missed: &[Nodes],
) -> Result<Outage, NoMemory>
    requires { AreLined groups.now of.now counts.now missed.now }
    ensures fault { IfOk result (λ outage. outage.fault ≡ fault) }
    ensures cuts { IfOk result (λ outage. AreCuts (told_of groups.now missed.now of.now) outage.cuts.items outage.sends) }
{
    let mut cuts = Vec::new(alloc);
    for j in 0..groups.len() {
        push_cut(&mut cuts, groups, of, counts, missed, j)?;
    }
    Ok(Outage {
        fault,
        cuts,
        sends: all_cut(groups, of, counts, missed),
    })
}
