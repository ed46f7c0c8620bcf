//! Which nodes need a stream and missed a send of it.
ghost use Rattle.std.specs.Prelude.{◌≡◌, ◌+◌, ◌<◌, ◌^◌, ◌||◌, ℕ, length, min, IfOk};
ghost use Rattle.hsr_bitset.specs.Numbers.{has};
ghost use Rattle.hsr_deliveries.specs.Delivered.{nodes_below};
ghost use Rattle.hsr_plan_report.specs.Missing.{AreMissing, Misses, misses};

use crate::sent::row_of;
use hsr_bitset::Numbers;
use hsr_deliveries::Delivery;
use hsr_frame::NoMemory;
use hsr_plan_sweep::{Audience, stream_at};
use std::alloc::Global;

/// How many numbers a set has room for; a topology has 64 nodes at most.
const ROOM: usize = 512;

/// With the nodes that need a send and missed it.
fn with_missing(
    missing: Numbers,
    audience: &Audience<'_>,
    stream: Option<usize>,
    delivery: &Delivery,
) -> Numbers
    ensures { (k : ℕ) → k < 512 → has result k
        ≡ (has missing k || misses audience.now stream delivery.now k) }
{
    let mut set = missing;
    for node in delivery.missed.iter() {
        if *node < ROOM && audience.needs(stream, delivery.at, *node) {
            set.put(*node, true);
        }
    }
    set
}

/// Keeps the nodes that need a send and missed it, at its row, if there is one.
fn miss_at(
    missing: &mut Vec<Numbers>,
    row: usize,
    audience: &Audience<'_>,
    stream: Option<usize>,
    delivery: &Delivery,
)
    ensures { Misses row (misses audience.now stream delivery.now) missing.old.items missing.new.items }
{
    if row < missing.len() {
        missing[row] = with_missing(missing[row], audience, stream, delivery);
    }
}

/// Of each row up to the last one the nodes that need a send of it and missed that, where these are the streams of sends.
pub(crate) fn missing_of(
    alloc: Global,
    audience: &Audience<'_>,
    streams: &[Option<usize>],
    deliveries: &[Delivery],
    last: usize,
) -> Result<Vec<Numbers>, NoMemory>
    requires { last + 1 < 2 ^ 64 }
    ensures long { IfOk result (λ missing. length missing.items ≡ last + 1) }
    ensures missing { IfOk result (λ missing. AreMissing audience.now streams.now last deliveries.now missing.items) }
{
    let mut missing = vec![in alloc; Numbers::new(); last + 1]?;
    for index in 0..deliveries.len() {
        let stream = stream_at(streams, index);
        let row = row_of(last, stream);
        miss_at(&mut missing, row, audience, stream, &deliveries[index]);
    }
    Ok(missing)
}

/// The nodes of a set, of so many, rising.
pub(crate) fn nodes_of(alloc: Global, set: &Numbers, nodes: usize) -> Result<Vec<usize>, NoMemory>
    ensures { IfOk result (λ list. list.items ≡ nodes_below (min nodes 512) (has set.now)) }
{
    let mut list = Vec::new(alloc);
    for node in 0..nodes.min(ROOM) {
        if set.has(node) {
            list.push(node)?;
        }
    }
    Ok(list)
}
