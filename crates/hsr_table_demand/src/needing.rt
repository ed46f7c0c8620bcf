//! How many entries a finished run needed.
ghost use Rattle.std.specs.Prelude.{◌≡◌, ◌<◌, length, IfOk};
ghost use Rattle.hsr_run_laws.specs.Run.{record_of};
ghost use Rattle.hsr_table_demand.specs.Needs.{IsJustEnough, IsMost, IsMostAt};
ghost use Rattle.hsr_table_demand.specs.Walked.{walked};

use crate::log::Log;
use crate::most::Needed;
use hsr_finished_run::Closed;
use hsr_frame::NoMemory;
use hsr_node::Probe;
use std::alloc::Global;

/// What was needed by the entries of a node too, where this was needed before.
fn needed_with<const C: usize>(
    alloc: Global,
    closed: &Closed<C>,
    node: usize,
    before: Needed,
) -> Result<Needed, NoMemory>
    requires node { node < length closed.now.run.places }
    ensures { IfOk result (λ needed. needed ≡ walked closed.now.run node before
        (length (record_of closed.now.run node))) }
{
    let place = &closed.topology().places()[node];
    let mut log = Log::new(alloc);
    let mut needed = before;
    for (i, x) in closed.entries(node).iter().enumerate() {
        let needs = log.step(place, Probe { node, place: i }, x)?;
        needed = needed.or_more(needs, node, i);
    }
    Ok(needed)
}

/// How many entries the duplicate tables of one node needed, as `needed` counts them, and the first arrival there that
/// needed as many. `NoMemory` if allocation fails.
pub fn needed_at<const C: usize>(
    alloc: Global,
    closed: &Closed<C>,
    node: usize,
) -> Result<Needed, NoMemory>
    requires { node < length closed.now.run.places }
    ensures { IfOk result (λ needed. IsMostAt closed.now.run node needed) }
{
    needed_with(alloc, closed, node, Needed::nothing())
}

/// How many entries the duplicate tables of a finished run needed, of the notes that it left (IEC 62439-3 clause 5). An
/// arrival at a port of a ring needs, at each egress that it wants and where its send was noted before, the notes there
/// from the latest one of the send to the youngest, where that one is less than 400 ms old; the node's own notes count
/// too. The greatest such number is given, and the first arrival that needs as many. `NoMemory` if allocation fails.
///
/// Nothing that was needed was forgotten exactly where nothing was forgotten by age and tables have as many entries.
pub fn needed<const C: usize>(alloc: Global, closed: &Closed<C>) -> Result<Needed, NoMemory>
    ensures most { IfOk result (λ needed. IsMost closed.now.run needed) }
    ensures enough { IfOk result (λ needed. IsJustEnough closed.now.run needed.entries) }
{
    let mut needed = Needed::nothing();
    for node in 0..closed.topology().places().len() {
        // Each node goes on from what those before it needed, so the first of equals is named.
        needed = needed_with(alloc, closed, node, needed)?;
    }
    Ok(needed)
}
