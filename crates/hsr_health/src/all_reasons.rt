//! All reasons that hold.
ghost use Rattle.std.specs.Prelude.{◌≡◌, ℕ, List, length, map, IfOk, OnOk};
ghost use Rattle.std.specs.List.{range_with_len};
ghost use Rattle.hsr_health.specs.Reasons.{AreOfPoints, AreOfSources, AreOfWhole};
ghost use Rattle.hsr_health.specs.Whole.{AreFindings, AreReasons, is_asked};
ghost use Rattle.hsr_sightings.specs.Read.{AreSightings};
ghost use Rattle.hsr_taps.specs.declared.direction.Taps as the_taps;
ghost use Rattle.hsr_sightings.specs.Sightings.{sees_both_ways};

use crate::copy_reasons::copy_reasons;
use crate::counts::Counts;
use crate::findings::Findings;
use crate::known::Known;
use crate::point_reasons::{one_sided_reason, one_way_reason};
use crate::reason::{Reason, put_reason, what_in};
use crate::silent_reason::silent_reason;
use crate::source_reasons::{crowded_reason, life_reason, lost_reason, restart_reason};
use crate::stray_reasons::put_stray_reasons;
use crate::whole_reasons::{absent_reason, dropped_reason, empty_reason, unjudged_reason};
use hsr_capture_reader::Losses;
use hsr_frame::{Mac, NoMemory};
use hsr_frame_groups::Noted;
use hsr_sightings::{Ring, Sighting};
use hsr_taps::Stray;
use std::alloc::Global;

/// Puts the reasons that speak of sources and their numbers behind others.
fn put_source_reasons(
    alloc: Global,
    reasons: &mut Vec<Reason>,
    ring: &Ring<'_>,
    copies: &[Noted],
    macs: &[Mac],
    known: &Known,
) -> Result<(), NoMemory>
    requires { length known.now.counts.items ≡ length known.now.groups.items }
    ensures { OnOk result (AreOfSources ring.now copies.now macs.now known.now.groups.items known.now.counts.items known.now.ledger.gaps.items known.now.lives.gaps.items
        known.now.ledger.restarts.items known.now.abouts.all.items known.now.abouts.silences.items reasons.old.items reasons.new.items) }
{
    let counts = known.counts.as_slice();
    let abouts = known.abouts.all.as_slice();
    let silences = known.abouts.silences.as_slice();
    let groups = known.groups.as_slice();
    let gaps = known.ledger.gaps.as_slice();
    let lost = lost_reason(alloc, copies, macs, groups, counts, gaps)?;
    let _lost = what_in(&lost);
    put_reason(reasons, &lost)?;
    let restarts = known.ledger.restarts.as_slice();
    let restart = restart_reason(copies, macs, restarts);
    put_reason(reasons, &restart)?;
    let silent = silent_reason(alloc, ring, copies, macs, abouts, silences)?;
    let _silent = what_in(&silent);
    put_reason(reasons, &silent)?;
    let lives = known.lives.gaps.as_slice();
    let life = life_reason(copies, macs, lives);
    put_reason(reasons, &life)?;
    Ok(())
}

/// Puts the reasons that speak of points behind others.
fn put_point_reasons(
    alloc: Global,
    reasons: &mut Vec<Reason>,
    ring: &Ring<'_>,
    copies: &[Noted],
    sightings: &[Sighting],
    both: &[bool],
) -> Result<(), NoMemory>
    requires { both.now ≡ map (sees_both_ways ring.now copies.now) (range_with_len 0 (length both.now)) }
    ensures { OnOk result ((numbers : List ℕ) → AreSightings ring.now copies.now sightings.now numbers
        → AreOfPoints ring.now copies.now (length both.now) reasons.old.items reasons.new.items) }
{
    let one_sided = one_sided_reason(alloc, ring, copies, both)?;
    let _sided = what_in(&one_sided);
    put_reason(reasons, &one_sided)?;
    let one_way = one_way_reason(alloc, ring, copies, both, sightings)?;
    let _way = what_in(&one_way);
    put_reason(reasons, &one_way)?;
    Ok(())
}

/// Puts the reasons that speak of the whole capture, and of sources that are absent, behind others.
fn put_whole_reasons(
    reasons: &mut Vec<Reason>,
    copies: &[Noted],
    counts: &[Counts],
    losses: &[Losses],
    is_asked: &[bool],
    absent: &[Mac],
) -> Result<(), NoMemory>
    ensures { OnOk result (AreOfWhole copies.now counts.now losses.now is_asked.now absent.now reasons.old.items reasons.new.items) }
{
    let empty = empty_reason(copies);
    put_reason(reasons, &empty)?;
    let unjudged = unjudged_reason(copies, counts);
    put_reason(reasons, &unjudged)?;
    let dropped = dropped_reason(losses, is_asked);
    put_reason(reasons, &dropped)?;
    let missing = absent_reason(absent);
    put_reason(reasons, &missing)?;
    Ok(())
}

/// What is asked of reasons, beside what is told of copies.
#[derive(Clone, Copy)]
pub(crate) struct Beside<'b> {
    pub(crate) losses: &'b [Losses],
    pub(crate) is_asked: &'b [bool],
    pub(crate) absent: &'b [Mac],
    pub(crate) strays: &'b [Stray],
    pub(crate) table: u64,
}

/// All reasons that hold.
pub(crate) fn all_reasons(
    alloc: Global,
    ring: &Ring<'_>,
    copies: &[Noted],
    findings: &Findings,
    beside: Beside<'_>,
) -> Result<Vec<Reason>, NoMemory>
    requires { (taps : List the_taps.Taps) × (many : ℕ) × AreFindings ring.now copies.now taps many findings.now }
    ensures { IfOk result (λ reasons. (taps : List the_taps.Taps) (many : ℕ) → AreFindings ring.now copies.now taps many findings.now
        → AreReasons ring.now taps copies.now many findings.now beside.entry.losses.now beside.entry.is_asked.now beside.entry.absent.now beside.entry.strays.now beside.entry.table reasons.items) }
{
    let seen = &findings.seen;
    let known = &findings.known;
    let measured = &findings.measured;
    let mut reasons = copy_reasons(
        alloc,
        copies,
        seen.carried.times.as_slice(),
        &seen.sightings,
        seen.marks.as_slice(),
        seen.overtaken.as_slice(),
    )?;
    let Beside {
        losses,
        is_asked,
        absent,
        strays,
        table,
    } = beside;
    let counts = known.counts.as_slice();
    put_whole_reasons(&mut reasons, copies, counts, losses, is_asked, absent)?;
    let macs = findings.sources.macs.as_slice();
    put_source_reasons(alloc, &mut reasons, ring, copies, macs, known)?;
    let all = seen.sightings.all.as_slice();
    let both = measured.both.as_slice();
    put_point_reasons(alloc, &mut reasons, ring, copies, all, both)?;
    let crowded = crowded_reason(copies, measured.crowd, table);
    put_reason(&mut reasons, &crowded)?;
    put_stray_reasons(&mut reasons, strays)?;
    Ok(reasons)
}
