//! When the copies of a finished run were judged.
ghost use Rattle.std.specs.Prelude.{◌≡◌, slice_get, IfOk};
ghost use Rattle.std.specs.List.{list_all};
ghost use Rattle.hsr_run_laws.specs.Run.{record_of};
ghost use Rattle.hsr_plan_hops.specs.Hops.{is_in_time, is_later_by, moment_at, moment_if};
ghost use Rattle.hsr_plan_hops.specs.Timing.{are_in_time};

use crate::wires::fit;
use hsr_finished_run::Closed;
use hsr_frame::NoMemory;
use hsr_plan_text::Transfer;
use hsr_timeline::{Hop, Spot, hops};
use std::alloc::Global;

/// The moment of an entry, if it is there.
fn moment_of<const C: usize>(closed: &Closed<C>, spot: Spot) -> Option<u64>
    ensures { result ≡ moment_if (slice_get (record_of closed.now.run spot.node) spot.place) }
{
    match closed.topology().places().get(spot.node) {
        Some(_) => match closed.entries(spot.node).get(spot.place) {
            Some(entry) => Some(entry.at),
            None => None,
        },
        None => None,
    }
}

/// The moment of an entry, if it is told.
pub(crate) fn moment_at<const C: usize>(closed: &Closed<C>, spot: Option<Spot>) -> Option<u64>
    ensures { result ≡ moment_at closed.now.run spot }
{
    match spot {
        Some(spot) => moment_of(closed, spot),
        None => None,
    }
}

/// Whether one moment is `us` microseconds later than another.
fn is_later_by(us: u64, from: Option<u64>, to: Option<u64>) -> bool
    ensures { result ≡ is_later_by us from to }
{
    match (from, to) {
        // An overflow is no later moment.
        (Some(from), Some(to)) => from.checked_add(us) == Some(to),
        _ => false,
    }
}

/// Whether a copy was lost, or judged `us` microseconds after it was passed.
fn is_in_time<const C: usize>(closed: &Closed<C>, us: u64, hop: &Hop) -> bool
    ensures { result ≡ is_in_time us closed.now.run hop.now }
{
    match hop.judged {
        // A lost copy has no end.
        None => true,
        Some(_) => {
            let passed = moment_at(closed, hop.passed);
            let judged = moment_at(closed, hop.judged);
            is_later_by(us, passed, judged)
        }
    }
}

/// Whether these copies were.
#[tactic(auto, using(crate::proofs::Listing::hops_step))]
fn are_all_in_time<const C: usize>(closed: &Closed<C>, us: u64, hops: &[Hop]) -> bool
    ensures { result ≡ list_all (is_in_time us closed.now.run) hops.now }
{
    for hop in hops.iter() {
        if !is_in_time(closed, us, hop) {
            return false;
        }
    }
    true
}

/// Whether each copy that wasn't lost was judged when it had to be.
pub(crate) fn are_in_time<const C: usize>(
    alloc: Global,
    closed: &Closed<C>,
    transfer: Transfer,
) -> Result<bool, NoMemory>
    ensures { IfOk result (λ b. b ≡ are_in_time transfer closed.now.run) }
{
    let hops = hops(alloc, closed)?;
    match transfer {
        Transfer::Hop(us) => Ok(are_all_in_time(closed, us, hops.as_slice())),
        Transfer::Wire(wire) => Ok(fit(closed, wire, hops.as_slice())),
    }
}
