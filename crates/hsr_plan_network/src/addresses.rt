//! Whose an address is.
ghost use Rattle.std.specs.Prelude.{◌≡◌};
ghost use Rattle.hsr_plan_text.specs.Fallible.{Gives};
ghost use Rattle.hsr_plan_network.specs.Addresses.{is_of, is_own, others_have};
ghost use Rattle.hsr_plan_network.specs.Checks.{each_passes};

use crate::names::is_in;
use crate::nodes::Node;
use hsr_frame::Mac;
use hsr_node::Place;
use hsr_plan_text::{Addressed, Refusal, What};
use std::alloc::Global;

/// Whether a name is the node's, or one of a station that it is.
fn is_of(node: &Node, name: &[u8]) -> bool
    ensures { result ≡ is_of node.now name.now }
{
    node.name.as_bytes() == name || is_in(name, node.stations.as_slice())
}

/// Whether a node of another name has the address.
fn others_have(nodes: &[Node], address: &Addressed) -> bool
    ensures { result ≡ others_have nodes.now address.now }
{
    let name = address.name.as_bytes();
    let mac = address.mac;
    // Two given addresses were compared before: here it is one that is another's default.
    nodes
        .iter()
        .any(|node| !is_of(node, name) && node.place.owns(mac))
}

/// Refuses an address that a node of another name has.
#[tactic(auto, unfolding(crate::specs::Addresses::is_own))]
fn check_own(alloc: Global, nodes: &[Node], address: &Addressed) -> Result<(), What>
    ensures { Gives (λ u. u) result (is_own nodes.now address.now) }
{
    if !others_have(nodes, address) {
        return Ok(());
    }
    let name = address.name.copy(alloc)?;
    Err(What::Refused(Refusal::AddressTaken(name)))
}

/// Refuses addresses of which a node of another name has one.
#[tactic(auto, using(crate::proofs::Passing::taken_step, crate::proofs::Passing::taken_fails))]
pub(crate) fn check_owners(
    alloc: Global,
    nodes: &[Node],
    addresses: &[Addressed],
) -> Result<(), What>
    ensures { Gives (λ u. u) result (each_passes (is_own nodes.now) addresses.now) }
{
    for address in addresses.iter() {
        match check_own(alloc, nodes, address) {
            Ok(()) => {}
            Err(what) => return Err(what),
        }
    }
    Ok(())
}
