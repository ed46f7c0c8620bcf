//! The deliveries of a finished run.
ghost use Rattle.std.specs.Prelude.{◌≡◌, ◌<◌, ◌∷◌, [], ◌++◌, ℕ, List, length, IfOk, OnOk};
ghost use Rattle.std.specs.List.{AllByRecursion};
ghost use Rattle.hsr_finished_run.specs.Finished.{IsFinished};
ghost use Rattle.hsr_run_laws.specs.Once.{IsExactlyOnce};
ghost use Rattle.hsr_run_laws.specs.Premises.{IsRing};
ghost use Rattle.hsr_deliveries.specs.Counted.{deliveries_at, delivered_by};
ghost use Rattle.hsr_deliveries.specs.Delivered.{IsComplete, deliveries, delivery_below, lost, times};

use crate::delivery::{Deliveries, Delivery};
use crate::due::is_due;
use crate::law::once_is_complete;
use crate::loss::Loss;
use crate::losses::Losses;
use crate::tally::Tally;
use hsr_finished_run::Closed;
use hsr_frame::{Mac, NoMemory};
use hsr_node::{Entry, Place, Probe, sent_view};
use std::alloc::Global;
use std::marker::Model;

/// A run, and what its records and rows tell of each send.
#[derive(Drop)]
struct Traces<'a, const C: usize> {
    closed: &'a Closed<C>,
    // Made in one pass over the records: each send is then looked up, and not searched for.
    tallies: Vec<Tally<'a>>,
    losses: Losses<'a, C>,
}

impl<'a, const C: usize> Model for Traces<'a, C> {
    ghost use Rattle.std.specs.Prelude.{◌≡◌};
    ghost use Rattle.hsr_run_laws.specs.Run.{Run};

    ghost Value = { Run };

    ghost view = { λ t. t.closed.now.run };

    ghost invariant = { λ t. (t.tallies.items ≡ t.closed.now.run.records)
        × (t.losses ≡ t.closed.now.run) };
}

/// Puts a tally last.
fn push_tally<'a>(
    alloc: Global,
    tallies: &mut Vec<Tally<'a>>,
    entries: &'a [Entry],
) -> Result<(), NoMemory>
    ensures { OnOk result (tallies.new.items ≡ tallies.old.items ++ entries.now ∷ []) }
{
    tallies.push(Tally::new(alloc, entries)?)?;
    Ok(())
}

/// The tallies of all records.
fn tallies_of<'a, const C: usize>(
    alloc: Global,
    closed: &'a Closed<C>,
) -> Result<Vec<Tally<'a>>, NoMemory>
    ensures finished { IsFinished closed.now }
    ensures tallies { IfOk result (λ tallies. tallies.items ≡ closed.now.run.records) }
{
    let mut tallies = Vec::new(alloc);
    for node in 0..closed.topology().places().len() {
        push_tally(alloc, &mut tallies, closed.entries(node))?;
    }
    Ok(tallies)
}

impl<'a, const C: usize> Traces<'a, C> {
    /// What the records and rows of a run tell.
    fn new(alloc: Global, closed: &'a Closed<C>) -> Result<Traces<'a, C>, NoMemory>
        ensures finished { IsFinished closed.now }
        ensures run { IfOk result (λ traces. traces ≡ closed.now.run) }
    {
        Ok(Traces {
            closed,
            tallies: tallies_of(alloc, closed)?,
            losses: Losses::new(alloc, closed)?,
        })
    }

    /// How often a node took a send up.
    fn times(&self, send: Probe, node: usize) -> usize
        requires { node < length self.now.records }
        ensures { result ≡ times self.now send node }
    {
        self.tallies[node].times(send)
    }

    /// The losses of a send.
    fn lost(&self, alloc: Global, send: Probe) -> Result<Vec<Loss>, NoMemory>
        ensures { IfOk result (λ losses. losses.items ≡ lost self.now send) }
    {
        self.losses.of_send(alloc, send)
    }

    /// The nodes.
    fn places(&self) -> &[Place]
        ensures places { result.now ≡ self.now.places }
        ensures records { length self.now.records ≡ length self.now.places }
    {
        self.closed.topology().places()
    }
}

/// What is told of a send to this destination, of this type.
#[tactic(auto, using(crate::proofs::Gathering::delivery_more))]
fn delivery_of<const C: usize>(
    alloc: Global,
    traces: &Traces<'_, C>,
    send: Probe,
    at: u64,
    dst: Mac,
    ethertype: u16,
) -> Result<Delivery, NoMemory>
    ensures { IfOk result (λ delivery. delivery ≡ delivery_below traces.now send at dst ethertype
        (length traces.now.places)) }
{
    let lost = traces.lost(alloc, send)?;
    let mut delivery = Delivery::new(alloc, send, at, dst, lost);
    for (node, place) in traces.places().iter().enumerate() {
        let is_due = is_due(place, send.node, node, dst, ethertype);
        delivery.add(node, is_due, traces.times(send, node))?;
    }
    Ok(delivery)
}

/// Lists an entry, if it is a send.
#[tactic(auto, unfolding(crate::specs::Counted::delivered_by))]
fn list_entry<const C: usize>(
    alloc: Global,
    sends: &mut Vec<Delivery>,
    traces: &Traces<'_, C>,
    send: Probe,
    place: &Place,
    x: &Entry,
) -> Result<(), NoMemory>
    ensures { OnOk result (sends.new.items ≡ sends.old.items
        ++ delivered_by traces.now send place.now x.now) }
{
    // A supervision is a send here too (RULES, Who got what).
    let Some(sending) = sent_view(place, &x.event, &x.outcome) else {
        return Ok(());
    };
    let (dst, ethertype) = (sending.frame.dst, sending.frame.kind);
    let delivery = delivery_of(alloc, traces, send, x.at, dst, ethertype)?;
    sends.push(delivery)?;
    Ok(())
}

/// Lists the sends of a node's record.
#[tactic(auto, using(crate::proofs::Gathering::listed_more))]
fn list_record<const C: usize>(
    alloc: Global,
    sends: &mut Vec<Delivery>,
    traces: &Traces<'_, C>,
    number: usize,
    place: &Place,
    entries: &[Entry],
) -> Result<(), NoMemory>
    ensures { OnOk result (sends.new.items ≡ sends.old.items
        ++ deliveries_at traces.now number place.now entries.now (length entries.now)) }
{
    for (i, x) in entries.iter().enumerate() {
        let send = Probe {
            node: number,
            place: i,
        };
        list_entry(alloc, sends, traces, send, place, x)?;
    }
    Ok(())
}

/// Lists the sends of a run.
#[tactic(auto, using(crate::proofs::Gathering::deliveries_more, crate::proofs::Gathering::listed_whole))]
fn list_sends<const C: usize>(alloc: Global, closed: &Closed<C>) -> Result<Vec<Delivery>, NoMemory>
    ensures finished { IsFinished closed.now }
    ensures value { IfOk result (λ sends. sends.items ≡ deliveries closed.now.run) }
{
    let traces = Traces::new(alloc, closed)?;
    let mut sends = Vec::new(alloc);
    for (node, place) in traces.places().iter().enumerate() {
        list_record(
            alloc,
            &mut sends,
            &traces,
            node,
            place,
            closed.entries(node),
        )?;
    }
    Ok(sends)
}

/// Who got each send of a finished run, by node and place: the nodes that it was due at, which of these missed it or
/// took it up twice, which others took it up, and its losses. Modes, links and cuts don't matter to where a send is
/// due. Where a ring delivered each frame exactly once (IEC 62439-3 clause 5.3), each send is complete. `NoMemory` if
/// allocation fails.
pub fn deliveries<const C: usize>(alloc: Global, closed: &Closed<C>) -> Result<Deliveries, NoMemory>
    ensures value { IfOk result (λ d. d.sends.items ≡ deliveries closed.now.run) }
    ensures complete { IfOk result (λ d. (macs : List (List ℕ)) → IsRing closed.now.run macs
        → IsExactlyOnce closed.now.run macs → AllByRecursion IsComplete d.sends.items) }
{
    // A law: it does nothing when it runs, and gives `complete` its proof.
    once_is_complete();
    Ok(Deliveries {
        sends: list_sends(alloc, closed)?,
    })
}
