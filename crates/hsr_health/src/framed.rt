//! What copies tell of one another as copies of frames, wherever they came.
ghost use Rattle.std.specs.Prelude.{List, IfOk};
ghost use Rattle.hsr_health.specs.Counted.{mark_but_late};
ghost use Rattle.hsr_health.specs.Whole.{AreFramed, lanes_of};
ghost use Rattle.hsr_sightings.specs.Read.{AreRead, TellsEach};
ghost use Rattle.hsr_sightings.specs.Ring as the_ring;
ghost use Rattle.hsr_taps.specs.Tallies.{is_at};
ghost use Rattle.hsr_taps.specs.declared.direction.Taps as the_taps;

use crate::marks::Marks;
use hsr_frame::NoMemory;
use hsr_frame_groups::Noted;
use hsr_sightings::{Carried, Overtaken, carried_of, overtaken_of};
use std::alloc::Global;

/// Of each copy the one that began its frame, how often its direction carried the frame before, and what is counted of it, but whether it is
/// late; and the copies that were overtaken.
#[derive(Drop)]
pub(crate) struct Framed {
    pub(crate) firsts: Vec<u32>,
    pub(crate) carried: Carried,
    pub(crate) overtaken: Vec<Overtaken>,
    pub(crate) marks: Vec<Marks>,
}

/// What the copies of a capture tell of one another as copies of frames, by which of them began each frame and by what is counted of them.
pub(crate) fn framed_of(
    alloc: Global,
    copies: &[Noted],
    firsts: Vec<u32>,
    marks: Vec<Marks>,
) -> Result<Framed, NoMemory>
    requires { AreRead copies.now firsts.items }
    ensures { IfOk result (λ framed. (ring : the_ring.Ring) (taps : List the_taps.Taps) → TellsEach (mark_but_late (is_at (lanes_of taps)) ring) copies.now marks.items
        → AreFramed ring copies.now taps framed) }
{
    let carried = carried_of(alloc, copies, firsts.as_slice())?;
    let overtaken = overtaken_of(alloc, copies, firsts.as_slice(), carried.times.as_slice())?;
    Ok(Framed {
        firsts,
        carried,
        overtaken,
        marks,
    })
}
