//! What copies tell of one another.
ghost use Rattle.std.specs.Prelude.{List, IfOk};
ghost use Rattle.hsr_health.specs.Whole.{AreCaught, AreFramed, IsSeen};
ghost use Rattle.hsr_taps.specs.declared.direction.Taps as the_taps;

use crate::framed::Framed;
use crate::marks::{Marks, with_lates};
use hsr_frame::NoMemory;
use hsr_frame_groups::Noted;
use hsr_sightings::{Carried, Overtaken, Ring, Sightings, lates_of, sightings_of};
use std::alloc::Global;

/// What the copies tell of one another.
#[derive(Drop)]
pub(crate) struct Seen {
    pub(crate) carried: Carried,
    pub(crate) sightings: Sightings,
    pub(crate) overtaken: Vec<Overtaken>,
    pub(crate) marks: Vec<Marks>,
}

/// What the copies of a capture tell of one another, where this is what they tell as copies of frames.
pub(crate) fn seen_of(
    alloc: Global,
    ring: &Ring<'_>,
    copies: &[Noted],
    framed: Framed,
) -> Result<Seen, NoMemory>
    requires caught { AreCaught ring.now copies.now }
    requires framed { (taps : List the_taps.Taps) × AreFramed ring.now copies.now taps framed }
    ensures { IfOk result (λ seen. (taps : List the_taps.Taps) → AreFramed ring.now copies.now taps framed → IsSeen ring.now copies.now taps seen) }
{
    let Framed {
        firsts,
        carried,
        overtaken,
        marks,
    } = framed;
    let times = carried.times.as_slice();
    let sightings = sightings_of(alloc, ring, copies, firsts, times)?;
    let all = sightings.all.as_slice();
    let numbers = sightings.of_copy.as_slice();
    let lates = lates_of(alloc, copies, all, numbers)?;
    let is_late = lates.as_slice();
    let marked = with_lates(marks, is_late);
    Ok(Seen {
        carried,
        sightings,
        overtaken,
        marks: marked,
    })
}
