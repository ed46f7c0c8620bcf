//! Effects with their causes, by an index.
ghost use Rattle.std.specs.Prelude.{◌≡◌, [], ◌++◌, if◌then◌else◌, Some, IfOk, OnOk, filter_map};
ghost use Rattle.std.specs.List.{cons_option};
ghost use Rattle.hsr_timeline.specs.declared.origin.Spot as spec;
ghost use Rattle.hsr_timeline.specs.Causes.{cause_in, hop_pair, is_spot, pair_of};
ghost use Rattle.hsr_timeline.specs.IndexedCauses.{value_of};

use crate::hop::Hop;
use crate::origin::Spot;
use hsr_frame::NoMemory;
use indexmap::IndexMap;
use std::alloc::Global;

/// The cause of each effect, by its node and place.
pub(crate) type Causes = IndexMap<(usize, usize), Spot>;

/// The cause of an entry, if it has one.
pub(crate) fn cause_of(causes: &Causes, spot: Spot) -> Option<Spot>
    ensures { result ≡ value_of causes.now spot }
{
    causes.get(&(spot.node, spot.place)).copied()
}

/// Keeps one more pair; the last of an effect counts.
fn keep(causes: &mut Causes, effect: Spot, cause: Spot) -> Result<(), NoMemory>
    ensures { OnOk result ((other : spec.Spot)
        → value_of causes.new other ≡ (if is_spot effect other then Some cause
        else value_of causes.old other)) }
{
    // The older cause, if there is one, is let go: the last of an effect counts.
    match causes.insert((effect.node, effect.place), cause) {
        Ok(_) => Ok(()),
        Err(_) => Err(NoMemory),
    }
}

/// The cause of each effect of some pairs.
pub(crate) fn causes_of(alloc: Global, pairs: &[(Spot, Spot)]) -> Result<Causes, NoMemory>
    ensures { IfOk result (λ causes. (spot : spec.Spot)
        → value_of causes spot ≡ cause_in pairs.now spot) }
{
    let mut causes = IndexMap::new(alloc);
    // The index is used by the loop's invariant alone.
    for (i, pair) in pairs.iter().enumerate() {
        keep(&mut causes, pair.0, pair.1)?;
    }
    Ok(causes)
}

/// Lists an effect with its cause, if both are there.
pub(crate) fn list_pair(
    pairs: &mut Vec<(Spot, Spot)>,
    effect: Option<Spot>,
    cause: Option<Spot>,
) -> Result<(), NoMemory>
    ensures { OnOk result (pairs.new.items
        ≡ pairs.old.items ++ cons_option (pair_of effect cause) []) }
{
    let (Some(effect), Some(cause)) = (effect, cause) else {
        return Ok(());
    };
    pairs.push((effect, cause))?;
    Ok(())
}

/// Each entry that judged a copy, with the one that passed it.
pub(crate) fn hop_pairs(alloc: Global, hops: &[Hop]) -> Result<Vec<(Spot, Spot)>, NoMemory>
    ensures { IfOk result (λ pairs. pairs.items ≡ filter_map hop_pair hops.now) }
{
    let mut pairs = Vec::new(alloc);
    // The index is used by the loop's invariant alone.
    for (i, hop) in hops.iter().enumerate() {
        list_pair(&mut pairs, hop.judged, hop.passed)?;
    }
    Ok(pairs)
}
