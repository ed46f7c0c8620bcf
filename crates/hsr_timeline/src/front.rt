//! Stamps as far as they are known: the stamp of a node's next entry.
ghost use Rattle.std.specs.Prelude.{◌≡◌, ◌+◌, ◌<◌, length, IfOk};
ghost use Rattle.hsr_timeline.specs.Stamps.{after, at_spot, before, stamp_by};
ghost use Rattle.hsr_timeline.specs.Fronts.{lists_of, next_of};

use crate::origin::{Origin, Spot};
use crate::stamp::Stamp;
use hsr_frame::NoMemory;

/// The stamp of an entry; none where it isn't known.
/// `stamps` has a list for each node, in the order of its record.
pub fn stamp_at(stamps: &[Vec<Stamp>], spot: Spot) -> Option<Stamp>
    ensures { result ≡ at_spot (lists_of stamps.now) spot }
{
    match stamps.get(spot.node) {
        Some(record) => record.get(spot.place).copied(),
        None => None,
    }
}

/// What is known of an entry; none where there is no such entry.
fn origin_at(records: &[Vec<Origin>], spot: Spot) -> Option<Origin>
    ensures { result ≡ at_spot (lists_of records.now) spot }
{
    match records.get(spot.node) {
        Some(record) => record.get(spot.place).copied(),
        None => None,
    }
}

/// The place before one in its record.
fn before(spot: Spot) -> Option<Spot>
    ensures { result ≡ before spot }
{
    if spot.place == 0 {
        return None;
    }
    Some(Spot {
        node: spot.node,
        place: spot.place - 1,
    })
}

/// One step after a stamp.
fn next(stamp: Stamp) -> Result<Stamp, NoMemory>
    ensures { IfOk result (λ t. t ≡ record { moment = stamp.moment; step = stamp.step + 1 }) }
{
    // 64 bits of steps are never used up; if they were, that would be told as a failed allocation.
    match stamp.step.checked_add(1) {
        Some(step) => Ok(Stamp {
            moment: stamp.moment,
            step,
        }),
        None => Err(NoMemory),
    }
}

/// A stamp, or one step after that of a cause, whichever is later; none where the cause's isn't known.
fn after(
    stamps: &[Vec<Stamp>],
    cause: Option<Spot>,
    stamp: Stamp,
) -> Result<Option<Stamp>, NoMemory>
    ensures { IfOk result (λ t. t ≡ after (at_spot (lists_of stamps.now)) cause stamp) }
{
    let Some(cause) = cause else {
        return Ok(Some(stamp));
    };
    match stamp_at(stamps, cause) {
        Some(known) => Ok(Some(stamp.later(next(known)?))),
        None => Ok(None),
    }
}

/// The stamp of an entry, by those of its causes.
fn stamp_by(stamps: &[Vec<Stamp>], spot: Spot, origin: Origin) -> Result<Option<Stamp>, NoMemory>
    ensures { IfOk result (λ t. t ≡ stamp_by (at_spot (lists_of stamps.now)) spot origin) }
{
    let own = Stamp {
        moment: origin.at,
        step: 0,
    };
    // The order of the three causes doesn't matter: the latest counts.
    let Some(recorded) = after(stamps, before(spot), own)? else {
        return Ok(None);
    };
    let Some(planned) = after(stamps, origin.planned, recorded)? else {
        return Ok(None);
    };
    after(stamps, origin.passed, planned)
}

/// The stamp of a node's next entry, if there is one and the stamps of its causes are known.
pub(crate) fn next_of(
    records: &[Vec<Origin>],
    stamps: &[Vec<Stamp>],
    node: usize,
) -> Result<Option<Stamp>, NoMemory>
    requires { node < length stamps.now }
    ensures { IfOk result (λ t. t ≡ next_of (lists_of records.now) (lists_of stamps.now) node) }
{
    let spot = Spot {
        node,
        // Stamps are found in the order of the record, so the next entry is the one behind those that are known.
        place: stamps[node].len(),
    };
    match origin_at(records, spot) {
        Some(origin) => stamp_by(stamps, spot, origin),
        None => Ok(None),
    }
}
