//! The reason that counts silences.
ghost use Rattle.std.specs.Prelude.{◌≡◌, not, filter, IfOk, None};
ghost use Rattle.hsr_health.specs.What.{silent_what};
ghost use Rattle.hsr_health.specs.Told.{IsOfSilences, first_from, earlier_of, is_told, silence_spot, untold_in};

use crate::reason::{Reason, Spot, What, Word};
use crate::source_reasons::spot_at;
use crate::whole_reasons::is_told;
use hsr_frame::{Mac, NoMemory};
use hsr_frame_groups::Noted;
use hsr_heard::{About, SILENT, Silence};
use hsr_sightings::Ring;
use std::alloc::Global;

/// The first of two silences in time.
fn earlier_of(found: Option<Silence>, silence: Silence) -> Silence
    ensures { result ≡ earlier_of found silence }
{
    match found {
        None => silence,
        Some(first) => {
            if first.from <= silence.from {
                first
            } else {
                silence
            }
        }
    }
}

/// The first silence in time.
fn first_silence(silences: &[Silence]) -> Option<Silence>
    ensures { result ≡ first_from None silences.now }
{
    let mut found: Option<Silence> = None;
    for silence in silences {
        found = Some(earlier_of(found, *silence));
    }
    found
}

/// The sources of which no supervision tells.
fn untold(alloc: Global, macs: &[Mac], abouts: &[About]) -> Result<Vec<Mac>, NoMemory>
    ensures { IfOk result (λ untold. untold.items ≡ filter (λ mac. not (is_told abouts.now mac)) macs.now) }
{
    let mut untold = Vec::new(alloc);
    for mac in macs {
        if !is_told(abouts, *mac) {
            untold.push(*mac)?;
        }
    }
    Ok(untold)
}

/// The sources of which no supervision tells, in a capture of 5 s or more.
fn untold_in(
    alloc: Global,
    ring: &Ring<'_>,
    macs: &[Mac],
    abouts: &[About],
) -> Result<Vec<Mac>, NoMemory>
    ensures { IfOk result (λ found. found.items ≡ untold_in ring.now macs.now abouts.now) }
{
    if ring.end.saturating_sub(ring.start) >= SILENT {
        untold(alloc, macs, abouts)
    } else {
        Ok(Vec::new(alloc))
    }
}

/// What is told of the first silence, or else of the first source that none tells of; nothing where there is neither.
fn silent_what(first: &Option<Silence>, untold: &[Mac]) -> Option<What>
    ensures { result ≡ silent_what first.now untold.now }
{
    match first {
        Some(first) => Some(What::Silence {
            source: first.mac,
            time: first.until.saturating_sub(first.from),
        }),
        None => match untold.first() {
            Some(mac) => Some(What::NoSupervision { source: *mac }),
            None => None,
        },
    }
}

/// Where the first silence begins.
fn silence_spot(copies: &[Noted], first: &Option<Silence>) -> Option<Spot>
    ensures { result ≡ silence_spot copies.now first.now }
{
    match first {
        None => None,
        Some(first) => match first.copy {
            None => None,
            Some(copy) => spot_at(copies, copy),
        },
    }
}

/// No supervision for over 5 s: about an address, or about a source, in a capture of 5 s or more.
pub(crate) fn silent_reason(
    alloc: Global,
    ring: &Ring<'_>,
    copies: &[Noted],
    macs: &[Mac],
    abouts: &[About],
    silences: &[Silence],
) -> Result<Option<Reason>, NoMemory>
    ensures { IfOk result (IsOfSilences ring.now copies.now macs.now abouts.now silences.now) }
{
    let untold = untold_in(alloc, ring, macs, abouts)?;
    let count = (silences.len() as u64).saturating_add(untold.len() as u64);
    let first = first_silence(silences);
    match silent_what(&first, untold.as_slice()) {
        None => Ok(None),
        Some(what) => Ok(Some(Reason {
            word: Word::Silent,
            count,
            spot: silence_spot(copies, &first),
            what,
        })),
    }
}
