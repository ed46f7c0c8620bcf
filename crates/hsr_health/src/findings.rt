//! All that is told of copies, but the reasons.
ghost use Rattle.std.specs.Prelude.{IfNone, IfOk, IfSome};
ghost use Rattle.hsr_health.specs.Sources.{HasManySources};
ghost use Rattle.hsr_health.specs.Whole.{AreCaught, AreContents, AreFindings};

use crate::contents::Contents;
use crate::devices::devices_of;
use crate::framed::framed_of;
use crate::known::{Known, known_of};
use crate::measured::{Measured, measured_of};
use crate::seen::{Seen, seen_of};
use crate::sources::{Sources, sources_of};
use hsr_frame::NoMemory;
use hsr_frame_groups::Noted;
use hsr_sightings::Ring;
use hsr_taps::Taps;
use std::alloc::Global;

/// All that is told of copies, but the reasons.
#[derive(Drop)]
pub(crate) struct Findings {
    pub(crate) sources: Sources,
    pub(crate) seen: Seen,
    pub(crate) known: Known,
    pub(crate) measured: Measured,
}

/// What is told of copies at so many points, but the reasons, by what they tell by their payloads; none where there are too many sources.
pub(crate) fn findings_of(
    alloc: Global,
    ring: &Ring<'_>,
    copies: &[Noted],
    contents: Contents,
    taps: &[Taps],
    many: usize,
) -> Result<Option<Findings>, NoMemory>
    requires caught { AreCaught ring.now copies.now }
    requires contents { AreContents ring.now copies.now taps.now contents }
    ensures some { IfOk result (λ found. IfSome found (λ findings. AreFindings ring.now copies.now taps.now many findings)) }
    ensures none { IfOk result (λ found. IfNone found (HasManySources copies.now)) }
{
    let Some(sources) = sources_of(alloc, copies)? else {
        return Ok(None);
    };
    let Contents {
        firsts,
        marks,
        hearing,
    } = contents;
    let framed = framed_of(alloc, copies, firsts, marks)?;
    let devices = devices_of(alloc, ring, copies, &sources, &framed, hearing)?;
    let seen = seen_of(alloc, ring, copies, framed)?;
    let known = known_of(alloc, ring, copies, &sources, &seen, devices)?;
    let measured = measured_of(alloc, ring, copies, &sources, &seen, many)?;
    Ok(Some(Findings {
        sources,
        seen,
        known,
        measured,
    }))
}
