//! How long each send of a run took to each node that took it up.
ghost use Rattle.std.specs.Prelude.{◌≡◌, ◌<◌, ◌++◌, length, IfOk, OnOk};
ghost use Rattle.hsr_latency.specs.Delays.{delays};
ghost use Rattle.hsr_latency.specs.Taken.{taken};
ghost use Rattle.hsr_latency.specs.declared.delay.Arrivals.TheVariants.{Up};

use crate::delay::{Arrivals, Delay};
use crate::delaying::delays;
use hsr_deliveries::Tally;
use hsr_finished_run::Closed;
use hsr_frame::NoMemory;
use hsr_moments::Moments;
use std::alloc::Global;

/// Puts last how long each send took that a node took up.
fn push_taken<const C: usize>(
    alloc: Global,
    list: &mut Vec<Delay>,
    moments: &Moments<'_, C>,
    closed: &Closed<C>,
    node: usize,
) -> Result<(), NoMemory>
    requires node { node < length closed.now.run.places }
    requires moments { moments.now ≡ closed.now.run }
    ensures { OnOk result (list.new.items ≡ list.old.items ++ delays Up closed.now.run node) }
{
    let entries = closed.entries(node);
    let tally = Tally::new(alloc, entries)?;
    let delays = delays(alloc, Arrivals::Up, moments, &tally, node, entries)?;
    list.extend_from_slice(delays.as_slice())?;
    Ok(())
}

/// How long each send took to each node that took it up, by the effective moments of entries.
fn taken_by<const C: usize>(
    alloc: Global,
    moments: &Moments<'_, C>,
    closed: &Closed<C>,
) -> Result<Vec<Delay>, NoMemory>
    requires { moments.now ≡ closed.now.run }
    ensures { IfOk result (λ list. list.items ≡ taken closed.now.run) }
{
    let mut list = Vec::new(alloc);
    for node in 0..closed.topology().places().len() {
        push_taken(alloc, &mut list, moments, closed, node)?;
    }
    Ok(list)
}

/// How long each send took to each node that took it up, by node.
pub(crate) fn taken<const C: usize>(
    alloc: Global,
    closed: &Closed<C>,
) -> Result<Vec<Delay>, NoMemory>
    ensures { IfOk result (λ list. list.items ≡ taken closed.now.run) }
{
    let moments = Moments::new(alloc, closed)?;
    taken_by(alloc, &moments, closed)
}
