//! The audit of a finished run of a ring of DANHs.
ghost use Rattle.std.specs.Prelude.{◌≡◌, IfErr, IfOk, OnOk};
ghost use Rattle.hsr_audit.specs.Certificate.{IsCertified, certified};
ghost use Rattle.hsr_audit.specs.Doubts.{IsFirstFault, IsRefused, of_ring};
ghost use Rattle.hsr_audit.specs.Danhs.{HasPremises};
ghost use Rattle.hsr_audit.specs.Round.{IsClear, IsOwnRing};
ghost use Rattle.hsr_finished_run.specs.Finished.{IsFinished};
ghost use Rattle.hsr_deliveries.specs.Delivered.{AreComplete};

use crate::certificate::{Certificate, Certified, list_record};
use crate::doubt::{AuditFault, Doubt, doubt_at};
use crate::premises::{are_going_round, have_own_addresses};
use crate::round::{addresses, is_round, loses_on_one};
use hsr_deliveries::once_is_complete;
use hsr_finished_run::Closed;
use hsr_frame::{Mac, NoMemory};
use hsr_network_laws::ring_is_crossed;
use hsr_run_laws::exactly_once;
use hsr_table_flaws::first_flaw;
use std::alloc::Global;

/// The addresses round the ring, or the first doubt that the nodes and links give.
fn ring_macs<const C: usize>(alloc: Global, closed: &Closed<C>) -> Result<Vec<Mac>, AuditFault>
    ensures finished { IsFinished closed.now }
    ensures ring { IfOk result (λ macs. IsOwnRing closed.now.run macs.items) }
    ensures fault { IfErr result (IsFirstFault of_ring closed.now.run) }
{
    let topology = closed.topology();
    if !is_round(topology.places(), topology.links()) {
        return Err(AuditFault::Doubt(Doubt::NotRing));
    }
    if !are_going_round(closed) {
        return Err(AuditFault::Doubt(Doubt::Mode));
    }
    if !have_own_addresses(closed) {
        return Err(AuditFault::Doubt(Doubt::SameAddress));
    }
    let macs = addresses(alloc, topology.places())?;
    Ok(macs)
}

/// The addresses round the ring of a run without a doubt, or the first doubt.
fn clear_macs<const C: usize>(alloc: Global, closed: &Closed<C>) -> Result<Vec<Mac>, AuditFault>
    ensures finished { IsFinished closed.now }
    ensures clear { IfOk result (λ macs. IsClear closed.now.run macs.items) }
    ensures fault { IfErr result (IsFirstFault of_ring closed.now.run) }
{
    let macs = ring_macs(alloc, closed)?;
    if !loses_on_one(closed) {
        return Err(AuditFault::Doubt(Doubt::TwoLinks));
    }
    // A law: a ring of DANHs has no RedBox, so nothing is numbered late.
    ring_is_crossed();
    match first_flaw(alloc, closed)? {
        Some(flaw) => Err(AuditFault::Doubt(doubt_at(flaw))),
        None => Ok(macs),
    }
}

/// The sends of a run, and the nodes that each is for, by these addresses.
#[tactic(auto, using(crate::proofs::Certifying::certified_more, crate::proofs::Certifying::listed_whole))]
fn list_sends<const C: usize>(
    alloc: Global,
    closed: &Closed<C>,
    macs: &[Mac],
) -> Result<Vec<Certified>, NoMemory>
    ensures { IfOk result (λ sends. sends.items ≡ certified closed.now.run macs.now) }
{
    let mut sends = Vec::new(alloc);
    for (node, place) in closed.topology().places().iter().enumerate() {
        list_record(alloc, &mut sends, macs, node, place, closed.entries(node))?;
    }
    Ok(sends)
}

/// The certificate of a run, or the first doubt.
fn certify<const C: usize>(alloc: Global, closed: &Closed<C>) -> Result<Certificate, AuditFault>
    ensures certified { IfOk result (λ c. IsCertified closed.now.run c.sends.items) }
    ensures complete { OnOk result (AreComplete closed.now.run) }
    ensures fault { IfErr result (IsFirstFault of_ring closed.now.run) }
{
    let macs = clear_macs(alloc, closed)?;
    // Laws: they do nothing when they run, and give the clauses above their proofs.
    exactly_once();
    once_is_complete();
    let sends = list_sends(alloc, closed, &macs)?;
    Ok(Certificate { sends })
}

/// The certificate of a finished run: each of its sends, with the nodes that it is for, each of which took its frame up
/// just once (IEC 62439-3 clause 5.3). There is one exactly where the nodes and links are a ring of DANHs in modes H
/// and U with addresses of their own, copies were lost on at most one link, and nothing was forgotten that was needed
/// and nothing mistaken; else the first doubt is named. Each send of a certified run is complete, as `deliveries`
/// tells. `NoMemory` if allocation fails.
pub fn audit<const C: usize>(alloc: Global, closed: &Closed<C>) -> Result<Certificate, AuditFault>
    ensures certified { IfOk result (λ c. IsCertified closed.now.run c.sends.items) }
    ensures complete { OnOk result (AreComplete closed.now.run) }
    ensures first { IfErr result (IsFirstFault of_ring closed.now.run) }
    ensures refused { IfErr result (IsRefused (HasPremises closed.now.run)) }
{
    certify(alloc, closed)
}
