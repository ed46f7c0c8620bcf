//! What is certified of a run.
ghost use Rattle.std.specs.Prelude.{◌≡◌, ◌++◌, length, IfOk, OnOk};
ghost use Rattle.hsr_audit.specs.Listed.{is_for, listed_at, listed_by, receivers_below, sent_to};

use hsr_deliveries::push_if;
use hsr_frame::{Mac, NoMemory};
use hsr_node::{Entry, Place, Probe, sent_view};
use std::alloc::Global;
use std::marker::Model;

/// A send, and the numbers of the nodes that it is for, rising.
#[derive(Drop)]
pub struct Certified {
    pub probe: Probe,
    pub receivers: Vec<usize>,
}

impl Model for Certified {
    ghost use Rattle.hsr_audit.specs.Certificate.{Certified};

    ghost Value = { Certified };

    ghost view = { λ c. record { probe = c.probe; receivers = c.receivers.items } };
}

/// All sends of a run, by node and place: each came to the nodes that it is for, and just once (IEC 62439-3
/// clause 5.3).
#[derive(Drop)]
pub struct Certificate {
    pub sends: Vec<Certified>,
}

/// Where the frame goes that an entry of a node sends, if it is a send.
#[tactic(auto, unfolding(crate::specs::Listed::sent_to))]
fn sent_to(place: &Place, x: &Entry) -> Option<Mac>
    ensures { result ≡ sent_to place.now x.now }
{
    let sending = sent_view(place, &x.event, &x.outcome)?;
    Some(sending.frame.dst)
}

/// Whether a frame to this destination is for a node: to a group it is for all but the sender.
fn is_for(mac: Mac, dst: Mac, sender: usize, node: usize) -> bool
    ensures { result ≡ is_for mac dst sender node }
{
    if dst.is_group() {
        node != sender
    } else {
        mac == dst
    }
}

/// The nodes that a frame is for.
#[tactic(auto, using(crate::proofs::Certifying::receivers_more))]
fn receivers(alloc: Global, macs: &[Mac], sender: usize, dst: Mac) -> Result<Vec<usize>, NoMemory>
    ensures { IfOk result (λ nodes. nodes.items ≡ receivers_below macs.now sender dst
        (length macs.now)) }
{
    let mut nodes = Vec::new(alloc);
    for (node, mac) in macs.iter().enumerate() {
        push_if(&mut nodes, is_for(*mac, dst, sender, node), node)?;
    }
    Ok(nodes)
}

/// Lists an entry, if it is a send.
#[tactic(auto, unfolding(crate::specs::Listed::listed_by))]
fn list_entry(
    alloc: Global,
    sends: &mut Vec<Certified>,
    macs: &[Mac],
    probe: Probe,
    place: &Place,
    x: &Entry,
) -> Result<(), NoMemory>
    ensures { OnOk result (sends.new.items ≡ sends.old.items
        ++ listed_by macs.now probe place.now x.now) }
{
    let Some(dst) = sent_to(place, x) else {
        return Ok(());
    };
    let receivers = receivers(alloc, macs, probe.node, dst)?;
    sends.push(Certified { probe, receivers })?;
    Ok(())
}

/// Lists the sends of a node's record.
#[tactic(auto, using(crate::proofs::Certifying::listed_more))]
pub(crate) fn list_record(
    alloc: Global,
    sends: &mut Vec<Certified>,
    macs: &[Mac],
    number: usize,
    place: &Place,
    entries: &[Entry],
) -> Result<(), NoMemory>
    ensures { OnOk result (sends.new.items ≡ sends.old.items
        ++ listed_at macs.now number place.now entries.now (length entries.now)) }
{
    for (i, x) in entries.iter().enumerate() {
        let probe = Probe {
            node: number,
            place: i,
        };
        list_entry(alloc, sends, macs, probe, place, x)?;
    }
    Ok(())
}
