//! The numbers of sources: gaps and restarts. A RedBox and its stations count together, so they are one group.
ghost use Rattle.std.specs.Prelude.{◌≡◌, ◌<◌, ◌≤◌, ◌^◌, ◌++◌, ◌&&◌, ℕ, Bool, List, filter_map, find, length, map, not, option_to_list, slice_get, slice_index, IfOk, OnOk, Some};
ghost use Rattle.hsr_frame.specs.Address.{is_same_address};
ghost use Rattle.hsr_health.specs.Counted.{changed, mark_but_late};
ghost use Rattle.hsr_heard.specs.Hearing.{those_of};
ghost use Rattle.hsr_health.specs.Numbering.{AreByRun, AreGroups, IsFirstSame, IsLedger, group_name, life_number, number_if, numbered_at, sums_by, with_gap, with_gaps, with_restart, with_restarts};
ghost use Rattle.hsr_number_runs.specs.Runs.{AreRunsOf};
ghost use Rattle.hsr_number_runs.specs.declared.run.Numbered.{Numbered};
ghost use Rattle.hsr_sightings.specs.Read.{TellsEach};
ghost use Rattle.hsr_sightings.specs.Ring as the_ring;

use crate::marks::{Marks, begun_among};
use hsr_frame::{Mac, NoMemory};
use hsr_frame_groups::Noted;
use hsr_heard::{About, Heard};
use hsr_number_runs::{Gap, InRun, Numbered, Restart, Runs, RunsSoFar, elsewhere_of, gaps_of};
use std::alloc::Global;

/// How many gaps a group's numbers have, how many numbers are missing, and how often they began anew.
#[derive(Clone, Copy, Default, PartialEq, Eq)]
pub struct GroupNumbers {
    pub gaps: u64,
    pub missing: u64,
    pub restarts: u64,
}

/// What the numbers of groups tell.
#[derive(Drop)]
pub(crate) struct Ledger {
    /// Of each group.
    pub(crate) numbers: Vec<GroupNumbers>,
    pub(crate) gaps: Vec<Gap>,
    pub(crate) restarts: Vec<Restart>,
    /// Of each sender, how many numbers between its own others of its group had.
    pub(crate) elsewhere: Vec<u64>,
}

/// What supervision tells of an address.
fn about_of(abouts: &[About], mac: Mac) -> Option<About>
    ensures { result ≡ find (λ about. is_same_address about.mac mac) abouts.now }
{
    for about in abouts {
        if about.mac == mac {
            return Some(*about);
        }
    }
    None
}

/// The address by which a source's group goes: that of its RedBox, as the last supervision about the source says, or of who sent that;
/// its own where there is none.
fn group_name(abouts: &[About], mac: Mac) -> Mac
    ensures { result ≡ group_name abouts.now mac }
{
    match about_of(abouts, mac) {
        None => mac,
        Some(about) => about.redbox.unwrap_or(about.source),
    }
}

/// Of each source the address by which its group goes.
fn names_of(alloc: Global, macs: &[Mac], abouts: &[About]) -> Result<Vec<Mac>, NoMemory>
    ensures { IfOk result (λ names. names.items ≡ map (group_name abouts.now) macs.now) }
{
    let mut names = Vec::new(alloc);
    for mac in macs {
        names.push(group_name(abouts, *mac))?;
    }
    Ok(names)
}

/// The first of these addresses that is the same as the one at an index, by its own index.
fn first_same(names: &[Mac], k: usize) -> usize
    requires { k < length names.now }
    ensures { IsFirstSame names.now k result }
{
    for j in 0..k {
        if names[j] == names[k] {
            return j;
        }
    }
    k
}

/// Of each source the index of its group, among as many groups as there are sources: that of the first source of the group.
pub(crate) fn groups_of(
    alloc: Global,
    macs: &[Mac],
    abouts: &[About],
) -> Result<Vec<usize>, NoMemory>
    ensures long { IfOk result (λ groups. length groups.items ≡ length macs.now) }
    ensures groups { IfOk result (λ groups. AreGroups (map (group_name abouts.now) macs.now) groups.items) }
{
    let names = names_of(alloc, macs, abouts)?;
    let mut groups = Vec::new(alloc);
    for k in 0..names.len() {
        groups.push(first_same(names.as_slice(), k))?;
    }
    Ok(groups)
}

/// The source of a copy, as the number of a sender.
fn sender_of(of_copy: &[u16], copy: u32) -> u32
    ensures { result ≡ slice_index of_copy.now copy }
{
    u32::from(of_copy.get(copy as usize).copied().unwrap_or(0))
}

/// The group of a sender, by the groups of sources. There are at most 1024 of them.
fn group_of(groups: &[usize], sender: u32) -> u32
    requires { (k group : ℕ) → slice_get groups.now k ≡ Some group → group < 2 ^ 32 }
    ensures { result ≡ slice_index groups.now sender }
{
    match groups.get(sender as usize) {
        None => 0,
        Some(group) => *group as u32,
    }
}

/// Whether a copy has a number: it begins a frame, and is no clash.
fn is_numbered(marks: Marks) -> bool
    ensures { result ≡ marks.begins && not marks.is_clash }
{
    marks.begins() && !marks.is_clash()
}

/// The number of a copy, if it has one.
fn number_if(caught: &Noted, is_numbered: bool, i: u32, sender: u32, group: u32) -> Option<Numbered>
    ensures { result ≡ number_if i sender group is_numbered caught.now }
{
    if is_numbered {
        Some(Numbered {
            group,
            sender,
            number: caught.seq(),
            at: caught.at(),
            copy: i,
        })
    } else {
        None
    }
}

/// With a number in its run, if there is one.
fn put_number(
    alloc: Global,
    so_far: RunsSoFar,
    number: Option<Numbered>,
) -> Result<RunsSoFar, NoMemory>
    requires { length so_far < 2 ^ 31 }
    ensures { IfOk result (λ more. more ≡ so_far ++ option_to_list number) }
{
    match number {
        None => Ok(so_far),
        Some(number) => Ok(so_far.put(alloc, number)?),
    }
}

/// The numbers of frames in their runs, in the order of time: those of copies that begin one and are no clash.
pub(crate) fn frame_runs(
    alloc: Global,
    copies: &[Noted],
    of_copy: &[u16],
    groups: &[usize],
    marks: &[Marks],
) -> Result<Runs, NoMemory>
    requires few { length copies.now < 2 ^ 31 }
    requires small { (k group : ℕ) → slice_get groups.now k ≡ Some group → group < 2 ^ 32 }
    requires marks { (is_by_lane : ℕ → Bool) × (ring : the_ring.Ring) × TellsEach (mark_but_late is_by_lane ring) copies.now marks.now }
    ensures { IfOk result (AreRunsOf (those_of (numbered_at of_copy.now groups.now) copies.now)) }
{
    // As much room is taken as there are frames, of which only clashes have no number.
    let mut so_far = RunsSoFar::with_capacity(alloc, begun_among(marks))?;
    for i in 0..copies.len() {
        let sender = sender_of(of_copy, i as u32);
        let group = group_of(groups, sender);
        let has_number = is_numbered(marks[i]);
        let number = number_if(&copies[i], has_number, i as u32, sender, group);
        so_far = put_number(alloc, so_far, number)?;
    }
    Ok(so_far.runs())
}

/// The number of a supervision frame, by the copy that began it.
fn life_number(one: &Heard, of_copy: &[u16]) -> Option<Numbered>
    ensures { result ≡ life_number of_copy.now one.now }
{
    if one.begins {
        let sender = sender_of(of_copy, one.copy);
        Some(Numbered {
            group: sender,
            sender,
            number: one.said.seq,
            at: one.at,
            copy: one.copy,
        })
    } else {
        None
    }
}

/// The numbers of supervision frames in their runs, in the order of time: each source counts its own.
pub(crate) fn life_runs(alloc: Global, heard: &[Heard], of_copy: &[u16]) -> Result<Runs, NoMemory>
    requires { length heard.now < 2 ^ 31 }
    ensures { IfOk result (λ runs. AreRunsOf (filter_map (life_number of_copy.now) heard.now) runs) }
{
    let mut so_far = RunsSoFar::with_capacity(alloc, heard.len())?;
    for one in heard {
        so_far = put_number(alloc, so_far, life_number(one, of_copy))?;
    }
    Ok(so_far.runs())
}

/// With a gap.
fn with_gap(numbers: GroupNumbers, gap: &Gap) -> GroupNumbers
    ensures { result ≡ with_gap gap.now numbers }
{
    GroupNumbers {
        gaps: numbers.gaps.saturating_add(1),
        missing: numbers.missing.saturating_add(gap.missing),
        restarts: numbers.restarts,
    }
}

/// With a restart.
fn with_restart(numbers: GroupNumbers) -> GroupNumbers
    ensures { result ≡ with_restart numbers }
{
    GroupNumbers {
        gaps: numbers.gaps,
        missing: numbers.missing,
        restarts: numbers.restarts.saturating_add(1),
    }
}

/// Counts a gap at its group, if that is among them.
fn count_gap(numbers: &mut Vec<GroupNumbers>, gap: &Gap)
    ensures long { length numbers.new.items ≡ length numbers.old.items }
    ensures numbers { numbers.new.items ≡ changed (with_gap gap.now) gap.now.group numbers.old.items }
{
    let group = gap.group as usize;
    if group < numbers.len() {
        numbers[group] = with_gap(numbers[group], gap);
    }
}

/// Counts a restart at its group, if that is among them.
fn count_restart(numbers: &mut Vec<GroupNumbers>, restart: &Restart)
    ensures long { length numbers.new.items ≡ length numbers.old.items }
    ensures numbers { numbers.new.items ≡ changed with_restart restart.now.group numbers.old.items }
{
    let group = restart.group as usize;
    if group < numbers.len() {
        numbers[group] = with_restart(numbers[group]);
    }
}

/// Counts gaps at their groups.
fn count_gaps(numbers: &mut Vec<GroupNumbers>, gaps: &[Gap])
    ensures long { length numbers.new.items ≡ length numbers.old.items }
    ensures numbers { numbers.new.items ≡ with_gaps gaps.now numbers.old.items }
{
    for gap in gaps {
        count_gap(numbers, gap);
    }
}

/// Counts restarts at their groups.
fn count_restarts(numbers: &mut Vec<GroupNumbers>, restarts: &[Restart])
    ensures long { length numbers.new.items ≡ length numbers.old.items }
    ensures numbers { numbers.new.items ≡ with_restarts restarts.now numbers.old.items }
{
    for restart in restarts {
        count_restart(numbers, restart);
    }
}

/// The sums of each of so many groups.
fn sums_of(
    alloc: Global,
    gaps: &[Gap],
    restarts: &[Restart],
    many: usize,
) -> Result<Vec<GroupNumbers>, NoMemory>
    ensures { IfOk result (λ numbers. numbers.items ≡ sums_by gaps.now restarts.now many) }
{
    let mut numbers = vec![in alloc; GroupNumbers::default(); many]?;
    count_gaps(&mut numbers, gaps);
    count_restarts(&mut numbers, restarts);
    Ok(numbers)
}

/// Numbers in runs, by run, and then by extended number.
fn by_run(in_runs: Vec<InRun>) -> Vec<InRun>
    ensures { AreByRun in_runs.items result.items }
{
    let mut sorted = in_runs;
    // No two numbers of a run are the same, so that a sort that needs no room does.
    sorted.sort_unstable_by_key(|p| (p.run, p.extended));
    sorted
}

/// What numbers in their runs tell; there are so many senders, and no more groups.
pub(crate) fn ledger_of(alloc: Global, runs: Runs, many: usize) -> Result<Ledger, NoMemory>
    ensures { IfOk result (λ ledger. (numbers : List Numbered) → AreRunsOf numbers runs → IsLedger numbers many ledger) }
{
    let Runs { in_runs, restarts } = runs;
    let in_runs = by_run(in_runs);
    let gaps = gaps_of(alloc, in_runs.as_slice())?;
    let elsewhere = elsewhere_of(alloc, in_runs.as_slice(), many)?;
    let numbers = sums_of(alloc, gaps.as_slice(), restarts.as_slice(), many)?;
    Ok(Ledger {
        numbers,
        gaps,
        restarts,
        elsewhere,
    })
}
