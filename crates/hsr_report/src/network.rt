//! What the report of a network tells before its last line: which ports on rings have no link, and which sends no node
//! is for.
ghost use Rattle.std.specs.Prelude.{◌≡◌, ◌<◌, ◌++◌, length, OnOk};
ghost use Rattle.std.specs.List.{flat_map};
ghost use Rattle.hsr_deliveries.specs.Delivered.{deliveries};
ghost use Rattle.hsr_run_laws.specs.Run.{place_of};
ghost use Rattle.hsr_node.specs.Place.{ports};
ghost use Rattle.hsr_report.specs.Report.{is_unlinked, network_lines, nobody_if, nobody_line, unlinked_if, unlinked_line, unlinked_lines, unlinked_ports};

use hsr_deliveries::{Delivery, deliveries};
use hsr_finished_run::Closed;
use hsr_frame::NoMemory;
use hsr_naming::Naming;
use hsr_node::{Place, Probe};
use hsr_options::Scope;
use hsr_routes::is_edge;
use hsr_text::put;
use hsr_topology::{End, is_used};
use std::alloc::Global;

/// Whether a port is on a ring, and has no link.
fn is_unlinked<const C: usize>(closed: &Closed<C>, node: usize, place: &Place, port: u8) -> bool
    requires { place.now ≡ place_of closed.now.run node }
    ensures { result ≡ is_unlinked closed.now.run node port }
{
    !is_edge(place, port) && !is_used(closed.topology().links(), End { node, port })
}

/// Puts the line of a port on a ring that has no link.
#[tactic(auto, unfolding(crate::specs::Report::unlinked_line))]
fn put_unlinked<const C: usize>(
    text: &mut Vec<u8>,
    naming: &Naming,
    closed: &Closed<C>,
    node: usize,
    place: &Place,
    port: u8,
) -> Result<(), NoMemory>
    requires { place.now ≡ place_of closed.now.run node }
    ensures { OnOk result (text.new.items ≡ text.old.items
        ++ unlinked_line naming.now closed.now.run node port) }
{
    put(text, "unlinked ")?;
    naming.put_node(text, node)?;
    text.extend_from_slice(&[b'.', place.letter(port), b'\n'])?;
    Ok(())
}

/// Puts the line of a port, if it is on a ring and has no link.
fn put_unlinked_if<const C: usize>(
    text: &mut Vec<u8>,
    naming: &Naming,
    closed: &Closed<C>,
    node: usize,
    place: &Place,
    port: u8,
) -> Result<(), NoMemory>
    requires { place.now ≡ place_of closed.now.run node }
    ensures { OnOk result (text.new.items ≡ text.old.items
        ++ unlinked_if naming.now closed.now.run node port) }
{
    if is_unlinked(closed, node, place, port) {
        put_unlinked(text, naming, closed, node, place, port)
    } else {
        Ok(())
    }
}

/// Puts the lines of a node's ports on rings that have no link.
fn put_unlinked_ports<const C: usize>(
    text: &mut Vec<u8>,
    naming: &Naming,
    closed: &Closed<C>,
    node: usize,
    place: &Place,
) -> Result<(), NoMemory>
    requires { place.now ≡ place_of closed.now.run node }
    ensures { OnOk result (text.new.items ≡ text.old.items
        ++ unlinked_ports naming.now closed.now.run node (ports place.now)) }
{
    for port in 0..place.ports() {
        put_unlinked_if(text, naming, closed, node, place, port)?;
    }
    Ok(())
}

/// Puts the lines of all ports on rings that have no link.
fn put_all_unlinked<const C: usize>(
    text: &mut Vec<u8>,
    naming: &Naming,
    closed: &Closed<C>,
) -> Result<(), NoMemory>
    ensures { OnOk result (text.new.items ≡ text.old.items
        ++ unlinked_lines naming.now closed.now.run (length closed.now.run.places)) }
{
    for (node, place) in closed.topology().places().iter().enumerate() {
        put_unlinked_ports(text, naming, closed, node, place)?;
    }
    Ok(())
}

/// Puts the line of a send that no node is for.
#[tactic(auto, unfolding(crate::specs::Report::nobody_line))]
fn put_nobody(text: &mut Vec<u8>, naming: &Naming, send: Probe) -> Result<(), NoMemory>
    ensures { OnOk result (text.new.items ≡ text.old.items ++ nobody_line naming.now send) }
{
    put(text, "nobody ")?;
    naming.put_send(text, send)?;
    put(text, "\n")
}

/// Puts the line of a send, if no node is for it.
fn put_nobody_if(text: &mut Vec<u8>, naming: &Naming, delivery: &Delivery) -> Result<(), NoMemory>
    ensures { OnOk result (text.new.items ≡ text.old.items ++ nobody_if naming.now delivery.now) }
{
    if delivery.due.is_empty() {
        put_nobody(text, naming, delivery.send)
    } else {
        Ok(())
    }
}

/// Puts the lines of those sends that no node is for.
#[tactic(auto, using(hsr_frame::proofs::OneMore::grown))]
fn put_nobodies(text: &mut Vec<u8>, naming: &Naming, sends: &[Delivery]) -> Result<(), NoMemory>
    ensures { OnOk result (text.new.items ≡ text.old.items ++ flat_map (nobody_if naming.now) sends.now) }
{
    for delivery in sends {
        put_nobody_if(text, naming, delivery)?;
    }
    Ok(())
}

/// Puts the lines of the sends of a run that no node is for.
fn put_all_nobodies<const C: usize>(
    alloc: Global,
    text: &mut Vec<u8>,
    naming: &Naming,
    closed: &Closed<C>,
) -> Result<(), NoMemory>
    ensures { OnOk result (text.new.items ≡ text.old.items
        ++ flat_map (nobody_if naming.now) (deliveries closed.now.run)) }
{
    let deliveries = deliveries(alloc, closed)?;
    put_nobodies(text, naming, deliveries.sends.as_slice())?;
    Ok(())
}

/// Puts what the report of a network tells more than that of a ring. `NoMemory` if allocation fails; a front of it may
/// stand there then.
pub fn put_network<const C: usize>(
    alloc: Global,
    text: &mut Vec<u8>,
    naming: &Naming,
    closed: &Closed<C>,
    scope: Scope,
) -> Result<(), NoMemory>
    ensures { OnOk result (text.new.items ≡ text.old.items ++ network_lines naming.now scope closed.now.run) }
{
    match scope {
        // Without `--network` a report has the agreed lines alone.
        Scope::Ring => Ok(()),
        Scope::Network => {
            // Of doubted runs too: who reads of a doubt looks for just that.
            put_all_unlinked(text, naming, closed)?;
            put_all_nobodies(alloc, text, naming, closed)
        }
    }
}
