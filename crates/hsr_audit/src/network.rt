//! The audit of a finished run of any network.
ghost use Rattle.std.specs.Prelude.{◌≡◌, IfErr, IfOk};
ghost use Rattle.hsr_audit.specs.Danhs.{HasPremises};
ghost use Rattle.hsr_audit.specs.Doubts.{IsFirstFault, IsNetworkPremised, IsRefused, IsSound, of_network};
ghost use Rattle.hsr_audit.specs.NetworkCertificate.{IsNetworkCertified};
ghost use Rattle.hsr_audit.specs.Sends.{AreServed, HasSend};

use crate::cutoff::Reach;
use crate::doubt::{AuditFault, Doubt, doubt_at};
use crate::missed::first_missed;
use crate::premises::{are_going_round, first_unlike_link, have_own_addresses};
use crate::sends::{first_uncovered, has_send};
use hsr_deliveries::{Deliveries, deliveries};
use hsr_finished_run::Closed;
use hsr_network_laws::{
    late_decides, lives_stay, once_in_network, once_to_station, ring_is_crossed,
};
use hsr_node::Probe;
use hsr_table_flaws::first_flaw;
use std::alloc::Global;

/// That a run of a network is certified: who got each of its sends, all of which are complete.
#[derive(Drop)]
pub struct NetworkCertificate {
    pub deliveries: Deliveries,
}

/// Whether something was sent in a run, it is that of a network, and nothing was forgotten, mistaken or numbered late;
/// else the first doubt.
fn check_sound<const C: usize>(alloc: Global, closed: &Closed<C>) -> Result<(), AuditFault>
    ensures sound { IfOk result (λ _. IsSound closed.now.run) }
    ensures fault { IfErr result (IsFirstFault of_network closed.now.run) }
{
    // In the order of RULES (Networks), which names the first doubt.
    if !has_send(closed) {
        return Err(AuditFault::Doubt(Doubt::Empty));
    }
    if !are_going_round(closed) {
        return Err(AuditFault::Doubt(Doubt::Mode));
    }
    if !have_own_addresses(closed) {
        return Err(AuditFault::Doubt(Doubt::SameAddress));
    }
    if let Some(link) = first_unlike_link(closed) {
        return Err(AuditFault::Doubt(Doubt::Side { link }));
    }
    match first_flaw(alloc, closed)? {
        Some(flaw) => Err(AuditFault::Doubt(doubt_at(flaw))),
        None => Ok(()),
    }
}

/// Whether each send of such a run comes to each node that it is due at; else the first doubt.
fn check_served<const C: usize>(alloc: Global, closed: &Closed<C>) -> Result<(), AuditFault>
    requires { IsSound closed.now.run }
    ensures served { IfOk result (λ _. AreServed closed.now.run) }
    ensures fault { IfErr result (IsFirstFault of_network closed.now.run) }
{
    let reach = Reach::new(alloc, closed)?;
    match reach.first_cut(alloc)? {
        Some(cut) => Err(AuditFault::Doubt(Doubt::CutOff {
            node: cut.node,
            place: cut.place,
            receiver: cut.receiver,
        })),
        None => Ok(()),
    }
}

/// Whether all holds that a certificate rests on; else the first doubt.
fn check_premises<const C: usize>(alloc: Global, closed: &Closed<C>) -> Result<(), AuditFault>
    ensures premised { IfOk result (λ _. IsNetworkPremised closed.now.run) }
    ensures fault { IfErr result (IsFirstFault of_network closed.now.run) }
{
    check_sound(alloc, closed)?;
    // Of the doubts of sends a cut comes first: it is a fact of links alone, and a planner can mend it.
    check_served(alloc, closed)?;
    if let Some(Probe { node, place }) = first_missed(closed) {
        return Err(AuditFault::Doubt(Doubt::UnknownStation { node, place }));
    }
    match first_uncovered(closed) {
        Some((node, place)) => Err(AuditFault::Doubt(Doubt::Uncovered { node, place })),
        None => Ok(()),
    }
}

/// The certificate of a run of a network, or the first doubt.
fn certify<const C: usize>(
    alloc: Global,
    closed: &Closed<C>,
) -> Result<NetworkCertificate, AuditFault>
    ensures certified { IfOk result (λ c.
        IsNetworkCertified closed.now.run c.deliveries.sends.items) }
    ensures fault { IfErr result (IsFirstFault of_network closed.now.run) }
{
    check_premises(alloc, closed)?;
    // Laws: they do nothing when they run, and give `certified` its proof.
    once_in_network();
    once_to_station();
    late_decides();
    lives_stay();
    // What it answers isn't used: its contract says that the run is finished.
    let _ = closed.topology();
    let deliveries = deliveries(alloc, closed)?;
    Ok(NetworkCertificate { deliveries })
}

/// The certificate of a finished run of a network (IEC 62439-3 clause 5): each node that a send of it is due at took
/// its frame up just once, nothing else went up, and each send is complete, as `deliveries` tells.
///
/// There is one exactly where something was sent; nodes are DANHs and RedBoxes in modes H and U, QuadBoxes and
/// Stations, with addresses that are theirs alone, each link joins two ports on rings or two edges, nothing was
/// forgotten that was needed, nothing mistaken, and nothing numbered late; each send comes to each node that it is due
/// at; the RedBox of each Station that a frame to one address is due at knew that address each time that it handled the
/// frame; and no send is a supervision frame of a Station that is joined with a Station. Else the first doubt is named.
/// Each run that sends anything and that `audit` certifies is certified. `NoMemory` if allocation fails.
pub fn audit_network<const C: usize>(
    alloc: Global,
    closed: &Closed<C>,
) -> Result<NetworkCertificate, AuditFault>
    ensures certified { IfOk result (λ c.
        IsNetworkCertified closed.now.run c.deliveries.sends.items) }
    ensures first { IfErr result (IsFirstFault of_network closed.now.run) }
    ensures refused { IfErr result (IsRefused (IsNetworkPremised closed.now.run)) }
    ensures no_ring { IfErr result (IsRefused (HasPremises closed.now.run
        × HasSend closed.now.run)) }
{
    // A law for `no_ring`: in a ring of DANHs nothing is numbered late.
    ring_is_crossed();
    let _ = closed.topology();
    certify(alloc, closed)
}
