//! What sources and their supervision tell.
ghost use Rattle.std.specs.Prelude.{◌≡◌, List, length, IfOk};
ghost use Rattle.hsr_health.specs.Counted.{AreSources};
ghost use Rattle.hsr_health.specs.Whole.{AreAlike, HaveLives, IsDevices, IsKnown, IsSeen, with_lives};
ghost use Rattle.hsr_taps.specs.declared.direction.Taps as the_taps;

use crate::counts::{Counts, counts_of};
use crate::devices::Devices;
use crate::ledger::Ledger;
use crate::seen::Seen;
use crate::sources::Sources;
use hsr_frame::NoMemory;
use hsr_frame_groups::Noted;
use hsr_heard::Abouts;
use hsr_sightings::Ring;
use std::alloc::Global;

/// What sources and their supervision tell.
#[derive(Drop)]
pub(crate) struct Known {
    pub(crate) counts: Vec<Counts>,
    pub(crate) abouts: Abouts,
    pub(crate) groups: Vec<usize>,
    pub(crate) ledger: Ledger,
    pub(crate) lives: Ledger,
}

/// Counts with the supervision frames of others.
fn with_lives(counts: Counts, lives: Counts) -> Counts
    ensures { result ≡ with_lives lives counts }
{
    Counts {
        lives: lives.lives,
        unreadable: lives.unreadable,
        ..counts
    }
}

/// Counts of sources, each with its supervision frames.
fn all_with_lives(
    alloc: Global,
    counts: &[Counts],
    lives: &[Counts],
) -> Result<Vec<Counts>, NoMemory>
    requires { length lives.now ≡ length counts.now }
    ensures long { IfOk result (λ all. length all.items ≡ length counts.now) }
    ensures alike { IfOk result (λ all. AreAlike counts.now all.items) }
    ensures lives { IfOk result (λ all. HaveLives lives.now all.items) }
{
    let mut all = Vec::new(alloc);
    for k in 0..counts.len() {
        all.push(with_lives(counts[k], lives[k]))?;
    }
    Ok(all)
}

/// What sources and their supervision tell, where this is what supervision and the numbers of frames tell.
pub(crate) fn known_of(
    alloc: Global,
    ring: &Ring<'_>,
    copies: &[Noted],
    sources: &Sources,
    seen: &Seen,
    devices: Devices,
) -> Result<Known, NoMemory>
    requires sources { AreSources copies.now sources.now.macs.items sources.now.of_copy.items }
    requires seen { (taps : List the_taps.Taps) × IsSeen ring.now copies.now taps seen.now }
    requires devices { IsDevices ring.now copies.now sources.now devices }
    ensures { IfOk result (λ known. IsKnown ring.now copies.now sources.now seen.now known) }
{
    let many = sources.macs.len();
    let of_copy = sources.of_copy.as_slice();
    let marks = seen.marks.as_slice();
    let all = seen.sightings.all.as_slice();
    let bare = counts_of(alloc, ring, copies, of_copy, all, marks, many)?;
    let counts = all_with_lives(alloc, bare.as_slice(), devices.counted.as_slice())?;
    let Devices {
        counted: _,
        abouts,
        groups,
        ledger,
        lives,
    } = devices;
    Ok(Known {
        counts,
        abouts,
        groups,
        ledger,
        lives,
    })
}
