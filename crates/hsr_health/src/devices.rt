//! What supervision and the numbers of frames tell of sources, whatever came of their frames.
ghost use Rattle.std.specs.Prelude.{◌≡◌, ◌<◌, ◌≤◌, ◌^◌, List, length, IfOk};
ghost use Rattle.hsr_health.specs.Counted.{AreSources, changed};
ghost use Rattle.hsr_health.specs.Whole.{AreAlike, AreAsMany, AreCaught, AreFramed, AreMore, IsDevices, life_put, lives_of, one_life, one_unreadable, unreadable_of};
ghost use Rattle.hsr_heard.specs.Hearing.{AreHeard};
ghost use Rattle.hsr_taps.specs.declared.direction.Taps as the_taps;

use crate::counts::{Counts, no_counts, source_of};
use crate::framed::Framed;
use crate::ledger::{Ledger, frame_runs, groups_of, ledger_of, life_runs};
use crate::sources::Sources;
use hsr_frame::NoMemory;
use hsr_frame_groups::Noted;
use hsr_heard::{Abouts, Heard, Hearing, abouts_of};
use hsr_sightings::Ring;
use std::alloc::Global;

/// With one more supervision frame that can be read.
fn with_life(counts: Counts) -> Counts
    ensures { result ≡ one_life counts }
{
    Counts {
        lives: counts.lives.saturating_add(1),
        ..counts
    }
}

/// With one more supervision frame that can't be read.
fn with_unreadable(counts: Counts) -> Counts
    ensures { result ≡ one_unreadable counts }
{
    Counts {
        unreadable: counts.unreadable.saturating_add(1),
        ..counts
    }
}

/// Counts a supervision frame of a source, if that is among them.
fn count_life(counts: &mut Vec<Counts>, source: usize)
    ensures long { length counts.new.items ≡ length counts.old.items }
    ensures counts { counts.new.items ≡ changed one_life source counts.old.items }
{
    if source < counts.len() {
        counts[source] = with_life(counts[source]);
    }
}

/// Counts a supervision frame of a source that can't be read, if the source is among them.
fn count_unreadable(counts: &mut Vec<Counts>, source: usize)
    ensures long { length counts.new.items ≡ length counts.old.items }
    ensures counts { counts.new.items ≡ changed one_unreadable source counts.old.items }
{
    if source < counts.len() {
        counts[source] = with_unreadable(counts[source]);
    }
}

/// Counts a supervision frame of a source, if it begins.
fn count_heard(counts: &mut Vec<Counts>, one: &Heard, of_copy: &[u16])
    ensures long { length counts.new.items ≡ length counts.old.items }
    ensures counts { counts.new.items ≡ life_put of_copy.now one.now counts.old.items }
{
    if one.begins {
        count_life(counts, source_of(of_copy, one.copy));
    }
}

/// Counts the supervision frames of each source.
fn count_lives(counts: &mut Vec<Counts>, heard: &[Heard], of_copy: &[u16])
    ensures long { length counts.new.items ≡ length counts.old.items }
    ensures alike { AreAlike counts.old.items counts.new.items }
    ensures lives { AreMore (λ own. own.lives) (lives_of of_copy.now heard.now) counts.old.items counts.new.items }
    ensures others { AreAsMany (λ own. own.unreadable) counts.old.items counts.new.items }
{
    for i in 0..heard.len() {
        count_heard(counts, &heard[i], of_copy);
    }
}

/// Counts the supervision frames of each source that can't be read.
fn count_unread(counts: &mut Vec<Counts>, unread: &[u32], of_copy: &[u16])
    ensures long { length counts.new.items ≡ length counts.old.items }
    ensures alike { AreAlike counts.old.items counts.new.items }
    ensures unreadable { AreMore (λ own. own.unreadable) (unreadable_of of_copy.now unread.now) counts.old.items counts.new.items }
    ensures others { AreAsMany (λ own. own.lives) counts.old.items counts.new.items }
{
    for i in 0..unread.len() {
        count_unreadable(counts, source_of(of_copy, unread[i]));
    }
}

/// What supervision and the numbers of frames tell of sources: of each its supervision frames, counted, and nothing else.
#[derive(Drop)]
pub(crate) struct Devices {
    pub(crate) counted: Vec<Counts>,
    pub(crate) abouts: Abouts,
    pub(crate) groups: Vec<usize>,
    pub(crate) ledger: Ledger,
    pub(crate) lives: Ledger,
}

/// What supervision and the numbers of frames tell of sources. It comes before the frames at points are told: their list and that of the numbers
/// take half as much room as all copies.
pub(crate) fn devices_of(
    alloc: Global,
    ring: &Ring<'_>,
    copies: &[Noted],
    sources: &Sources,
    framed: &Framed,
    hearing: Hearing,
) -> Result<Devices, NoMemory>
    requires caught { AreCaught ring.now copies.now }
    requires sources { AreSources copies.now sources.now.macs.items sources.now.of_copy.items }
    requires few { length sources.now.macs.items ≤ 1024 }
    requires framed { (taps : List the_taps.Taps) × AreFramed ring.now copies.now taps framed.now }
    requires heard { AreHeard ring.now copies.now hearing.heard.items hearing.unread.items }
    ensures { IfOk result (IsDevices ring.now copies.now sources.now) }
{
    let many = sources.macs.len();
    let of_copy = sources.of_copy.as_slice();
    let mut counted = no_counts(alloc, many)?;
    let Hearing { heard, unread } = hearing;
    count_lives(&mut counted, heard.as_slice(), of_copy);
    count_unread(&mut counted, unread.as_slice(), of_copy);
    let said = life_runs(alloc, heard.as_slice(), of_copy)?;
    let lives = ledger_of(alloc, said, many)?;
    let abouts = abouts_of(alloc, heard, ring.start, ring.end)?;
    let macs = sources.macs.as_slice();
    let told = abouts.all.as_slice();
    let groups = groups_of(alloc, macs, told)?;
    let of_source = groups.as_slice();
    let marks = framed.marks.as_slice();
    let placed = frame_runs(alloc, copies, of_copy, of_source, marks)?;
    let ledger = ledger_of(alloc, placed, many)?;
    Ok(Devices {
        counted,
        abouts,
        groups,
        ledger,
        lives,
    })
}
