//! The lost copies of each send.
ghost use Rattle.std.specs.Prelude.{◌≡◌, ◌<◌, ◌∷◌, [], ◌++◌, filter_map, if◌then◌else◌, length, IfOk, OnOk, Some};
ghost use Rattle.std.specs.List.{cons_option};
ghost use Rattle.hsr_run_laws.specs.Run.{is_of};
ghost use Rattle.hsr_deliveries.specs.Counted.{losses_in};
ghost use Rattle.hsr_deliveries.specs.Delivered.{loss_of, lost, lost_below};
ghost use Rattle.hsr_node.specs.declared.event.Probe as spec;

use crate::loss::Loss;
use hsr_finished_run::Closed;
use hsr_frame::NoMemory;
use hsr_link::Row;
use hsr_node::Probe;
use indexmap::IndexMap;
use std::alloc::Global;
use std::marker::Model;

/// The losses of each send that lost copies, by its node and place.
type ByProbe = IndexMap<(usize, usize), Vec<Loss>>;

/// Keeps one more loss of a send.
fn keep(alloc: Global, kept: &mut ByProbe, send: Probe, loss: Loss) -> Result<(), NoMemory>
    ensures { OnOk result ((other : spec.Probe) → losses_in kept.new other
        ≡ losses_in kept.old other ++ (if is_of other (Some send) then loss ∷ [] else [])) }
{
    kept.entry((send.node, send.place))?
        .or_insert(Vec::new(alloc))
        .push(loss)?;
    Ok(())
}

/// Keeps the loss of a row's copy, if it was lost and is of a send.
fn keep_row(alloc: Global, kept: &mut ByProbe, link: usize, row: &Row) -> Result<(), NoMemory>
    ensures { OnOk result ((other : spec.Probe) → losses_in kept.new other
        ≡ losses_in kept.old other ++ cons_option (loss_of other link row.now) []) }
{
    match row.carried.probe {
        Some(send) if row.fate.is_lost() => {
            let loss = Loss {
                link,
                dir: row.dir,
                fate: row.fate,
            };
            keep(alloc, kept, send, loss)
        }
        _ => Ok(()),
    }
}

/// Keeps the losses of a link, by index.
fn keep_rows(alloc: Global, kept: &mut ByProbe, link: usize, rows: &[Row]) -> Result<(), NoMemory>
    ensures { OnOk result ((other : spec.Probe) → losses_in kept.new other
        ≡ losses_in kept.old other ++ filter_map (loss_of other link) rows.now) }
{
    for row in rows {
        keep_row(alloc, kept, link, row)?;
    }
    Ok(())
}

/// The losses of a run, by their sends.
fn losses_by_send<const C: usize>(alloc: Global, closed: &Closed<C>) -> Result<ByProbe, NoMemory>
    ensures { IfOk result (λ kept. (send : spec.Probe) → losses_in kept send
        ≡ lost closed.now.run send) }
{
    let mut kept = IndexMap::new(alloc);
    for link in 0..closed.topology().links().len() {
        keep_rows(alloc, &mut kept, link, closed.rows(link))?;
    }
    Ok(kept)
}

/// Those of a send, by link and index on the link.
fn losses_of(alloc: Global, kept: &ByProbe, send: Probe) -> Result<Vec<Loss>, NoMemory>
    ensures { IfOk result (λ losses. losses.items ≡ losses_in kept.now send) }
{
    let mut losses = Vec::new(alloc);
    if let Some(kept) = kept.get(&(send.node, send.place)) {
        losses.extend_from_slice(kept.as_slice())?;
    }
    Ok(losses)
}

/// A finished run, and the losses of each of its sends, found in one walk over its rows.
#[derive(Drop)]
pub struct Losses<'a, const C: usize> {
    // Kept for its model: contracts speak of losses by the run that they are of.
    closed: &'a Closed<C>,
    by_send: ByProbe,
}

impl<'a, const C: usize> Model for Losses<'a, C> {
    ghost use Rattle.std.specs.Prelude.{◌≡◌};
    ghost use Rattle.hsr_run_laws.specs.Run.{Run};
    ghost use Rattle.hsr_node.specs.declared.event.Probe as spec;
    ghost use Rattle.hsr_deliveries.specs.Counted.{losses_in};
    ghost use Rattle.hsr_deliveries.specs.Delivered.{lost};

    ghost Value = { Run };

    ghost view = { λ l. l.closed.now.run };

    ghost invariant = { λ l. (send : spec.Probe) → losses_in l.by_send send
        ≡ lost l.closed.now.run send };
}

impl<'a, const C: usize> Losses<'a, C> {
    /// The losses of a run. `NoMemory` if allocation fails.
    pub fn new(alloc: Global, closed: &'a Closed<C>) -> Result<Losses<'a, C>, NoMemory>
        ensures { IfOk result (λ losses. losses ≡ closed.now.run) }
    {
        let by_send = losses_by_send(alloc, closed)?;
        Ok(Losses { closed, by_send })
    }

    /// Those of a send, by link and index on the link. `NoMemory` if allocation fails.
    pub fn of_send(&self, alloc: Global, send: Probe) -> Result<Vec<Loss>, NoMemory>
        ensures { IfOk result (λ losses. losses.items ≡ lost self.now send) }
    {
        losses_of(alloc, &self.by_send, send)
    }
}
