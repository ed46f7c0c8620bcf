//! Who sends, to whom, and who needs it.
ghost use Rattle.std.specs.List.{list_any};
ghost use Rattle.std.specs.Prelude.{◌≡◌, [], Err, position, slice_get, ◌==◌, not};
ghost use Rattle.hsr_plan_text.specs.Fallible.{Gives};
ghost use Rattle.hsr_plan_text.specs.declared.fault.What.TheVariants.{Refused};
ghost use Rattle.hsr_plan_text.specs.declared.fault.Refusal.TheVariants.{NoSuchName};
ghost use Rattle.hsr_plan_network.specs.Checks.{each_passes};
ghost use Rattle.hsr_plan_network.specs.Names.{is_in};
ghost use Rattle.hsr_plan_schedule.specs.Senders.{as_node, as_station, is_due_at, is_own, is_somebody, named, nobody, own_sender, receives, sender, some_has, source, sources, station_mac, station_sender, target};

use crate::occasion::Sender;
use hsr_frame::Mac;
use hsr_node::{Place, ring_address};
use hsr_plan_network::{Node, is_in, number};
use hsr_plan_text::{Key, Refusal, Target, What, Word};
use std::alloc::Global;

// ---- names

/// The number of the node that has the name.
pub(crate) fn named(nodes: &[Node], name: &[u8]) -> Option<usize>
    ensures { result ≡ named nodes.now name.now }
{
    nodes.iter().position(|node| node.name.as_bytes() == name)
}

/// The address of a Station with that index among its own; none where it is no Station or has no such address.
fn station_mac(place: &Place, at: usize) -> Option<Mac>
    ensures { result ≡ station_mac place.now at }
{
    match place {
        Place::Station { macs } => {
            // A Station has 16 addresses at most, so its index fits 8 bits.
            if at < 16 {
                macs.as_slice().get(at).copied()
            } else {
                None
            }
        }
        Place::Danh { .. } | Place::RedBox { .. } | Place::QuadBox => None,
    }
}

/// The node of that number as a sender.
fn as_node(nodes: &[Node], number: usize) -> Option<Sender>
    ensures { result ≡ own_sender number (slice_get nodes.now number) }
{
    match nodes.get(number) {
        Some(node) => match ring_address(&node.place) {
            Some(mac) => Some(Sender {
                node: number,
                from: 0,
                mac,
            }),
            None => None,
        },
        None => None,
    }
}

/// The station of a name as a sender: the node `at` is the Station that is it, and `from` the index of its address there. None where
/// there is no such node, or it is no Station.
fn as_station(nodes: &[Node], at: usize, name: &[u8]) -> Option<Sender>
    ensures { result ≡ station_sender at (slice_get nodes.now at) name.now }
{
    match nodes.get(at) {
        Some(node) => {
            let from = number(node.stations.as_slice(), name);
            match station_mac(&node.place, from) {
                Some(mac) => Some(Sender {
                    node: at,
                    from: from as u8,
                    mac,
                }),
                None => None,
            }
        }
        None => None,
    }
}

/// The number of the Station that is a station of that name.
pub(crate) fn station_of(nodes: &[Node], name: &[u8]) -> Option<usize>
    ensures { result ≡ position (λ node. is_in name.now node.stations) nodes.now }
{
    nodes
        .iter()
        .position(|node| is_in(name, node.stations.as_slice()))
}

/// The sender of a station's name.
fn station_named(nodes: &[Node], name: &[u8]) -> Option<Sender>
    ensures { result ≡ as_station nodes.now
        (position (λ node. is_in name.now node.stations) nodes.now) name.now }
{
    match station_of(nodes, name) {
        Some(at) => as_station(nodes, at, name),
        None => None,
    }
}

/// The sender of a node's name.
fn node_named(nodes: &[Node], name: &[u8]) -> Option<Sender>
    ensures { result ≡ as_node nodes.now (named nodes.now name.now) }
{
    match named(nodes, name) {
        Some(at) => as_node(nodes, at),
        None => None,
    }
}

/// The sender of a name.
fn sender(nodes: &[Node], name: &[u8]) -> Option<Sender>
    ensures { result ≡ sender nodes.now name.now }
{
    match node_named(nodes, name) {
        Some(sender) => Some(sender),
        None => station_named(nodes, name),
    }
}

/// The fault of a name that nobody has.
pub(crate) fn no_such_name<T>(alloc: Global, name: &[u8]) -> Result<T, What>
    ensures { Gives (λ x. x) result (Err (Refused (NoSuchName name.now))) }
{
    let name = Word::of(alloc, name)?;
    Err(What::Refused(Refusal::NoSuchName(name)))
}

/// The fault of a name that nobody has who could send: no node has it, or one without an address.
fn no_sender<T>(alloc: Global, nodes: &[Node], name: &[u8]) -> Result<T, What>
    ensures { Gives (λ x. x) result (Err (Refused (nobody nodes.now name.now))) }
{
    let word = Word::of(alloc, name)?;
    match named(nodes, name) {
        Some(_) => Err(What::Refused(Refusal::NoAddress(word))),
        None => Err(What::Refused(Refusal::NoSuchName(word))),
    }
}

// ---- destinations

/// Whether some node has an address.
fn some_has(nodes: &[Node], mac: Mac) -> bool
    ensures { result ≡ some_has nodes.now mac }
{
    nodes.iter().any(|node| node.place.owns(mac))
}

/// Whether an address is a group's, or some node has it.
fn is_somebody(nodes: &[Node], mac: Mac) -> bool
    ensures { result ≡ is_somebody nodes.now mac }
{
    // A group may have no member here: who hears it isn't the plan's matter.
    mac.is_group() || some_has(nodes, mac)
}

/// The destination that a stream is for.
pub(crate) fn target(alloc: Global, nodes: &[Node], whom: &Target) -> Result<Mac, What>
    ensures { Gives (λ m. m) result (target nodes.now whom.now) }
{
    match whom {
        Target::Named(name) => match sender(nodes, name.as_bytes()) {
            Some(sender) => Ok(sender.mac),
            None => no_sender(alloc, nodes, name.as_bytes()),
        },
        Target::Address(mac) => {
            if is_somebody(nodes, *mac) {
                Ok(*mac)
            } else {
                Err(What::Refused(Refusal::Nobody(Key::To)))
            }
        }
    }
}

/// Whether the node of that number has an address.
pub(crate) fn is_own(nodes: &[Node], number: usize, mac: Mac) -> bool
    ensures { result ≡ is_own (slice_get nodes.now number) mac }
{
    match nodes.get(number) {
        Some(node) => node.place.owns(mac),
        None => false,
    }
}

/// The sender of a name, to that destination.
fn source(alloc: Global, nodes: &[Node], dst: Mac, name: &Word) -> Result<Sender, What>
    ensures { Gives (λ s. s) result (source nodes.now dst name.now) }
{
    let Some(sender) = sender(nodes, name.as_bytes()) else {
        return no_sender(alloc, nodes, name.as_bytes());
    };
    if is_own(nodes, sender.node, dst) {
        let name = name.copy(alloc)?;
        return Err(What::Refused(Refusal::ToItself(name)));
    }
    Ok(sender)
}

/// The senders of names, to that destination.
#[tactic(auto, using(crate::proofs::Lists::sources_step, crate::proofs::Lists::sources_fail))]
pub(crate) fn sources(
    alloc: Global,
    nodes: &[Node],
    dst: Mac,
    names: &[Word],
) -> Result<Vec<Sender>, What>
    ensures { Gives (λ v. v.items) result (sources nodes.now dst [] names.now) }
{
    let mut senders = Vec::new(alloc);
    for name in names.iter() {
        match source(alloc, nodes, dst, name) {
            Ok(sender) => senders.push(sender)?,
            Err(what) => return Err(what),
        }
    }
    Ok(senders)
}

// ---- receivers

/// Whether a node other than this one is among the senders.
fn has_other(senders: &[Sender], node: usize) -> bool
    ensures { result ≡ list_any (λ s. not (s.node == node)) senders.now }
{
    senders.iter().any(|sender| sender.node != node)
}

/// Whether frames to that destination are due at an address of a node: it is the destination, or that is a group's; and
/// another node is among the senders.
fn is_due_at(senders: &[Sender], dst: Mac, receiver: Sender) -> bool
    ensures { result ≡ is_due_at senders.now dst receiver }
{
    (dst.is_group() || receiver.mac == dst) && has_other(senders, receiver.node)
}

/// Refuses a name of nobody, or of who isn't due the frames of these senders.
#[tactic(auto, unfolding(crate::specs::Senders::receives))]
fn check_receiver(
    alloc: Global,
    nodes: &[Node],
    senders: &[Sender],
    dst: Mac,
    name: &Word,
) -> Result<(), What>
    ensures { Gives (λ u. u) result (receives nodes.now senders.now dst name.now) }
{
    let Some(receiver) = sender(nodes, name.as_bytes()) else {
        return no_sender(alloc, nodes, name.as_bytes());
    };
    if is_due_at(senders, dst, receiver) {
        return Ok(());
    }
    let name = name.copy(alloc)?;
    Err(What::Refused(Refusal::NotDue(name)))
}

/// Refuses names of which one is nobody's, or isn't due the frames of these senders.
#[tactic(auto, using(crate::proofs::Lists::receives_step, crate::proofs::Lists::receives_fails))]
pub(crate) fn check_receivers(
    alloc: Global,
    nodes: &[Node],
    senders: &[Sender],
    dst: Mac,
    names: &[Word],
) -> Result<(), What>
    ensures { Gives (λ u. u) result (each_passes
        (receives nodes.now senders.now dst) names.now) }
{
    for name in names.iter() {
        match check_receiver(alloc, nodes, senders, dst, name) {
            Ok(()) => {}
            Err(what) => return Err(what),
        }
    }
    Ok(())
}
