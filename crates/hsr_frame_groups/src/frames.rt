//! The frame of each copy.
ghost use Rattle.std.specs.Prelude.{◌≡◌, ◌<◌, ◌≤◌, ◌^◌, ◌∷◌, List, length, IfOk, OnOk};
ghost use Rattle.hsr_recent_table.specs.Recent.{Knows, Put, horizon_of, moment_of};
ghost use Rattle.hsr_frame_groups.specs.Frames.{AreFirst, AreInTime, IsFirst, IsReady, first_by, joins, put_for};

use crate::caught::{Caught, key_of};
use hsr_frame::NoMemory;
use hsr_frame_copies::says_same;
use hsr_recent_table::RecentTable;
use std::alloc::Global;

/// How long a frame goes on, in nanoseconds.
pub const FRAME_TIME: u64 = 2_000_000_000;

/// Whether a copy is of the frame that another one began.
fn joins(first: &Caught<'_>, caught: &Caught<'_>) -> bool
    ensures { result ≡ joins first.now caught.now }
{
    caught.at().saturating_sub(first.at()) < FRAME_TIME && says_same(&first.copy(), &caught.copy())
}

/// The place that a table tells of, if the copy there began the frame of the copy at a place; or else that place.
fn first_by(copies: &[Caught<'_>], first: u32, i: u32) -> u32
    ensures { result ≡ first_by copies.now first i }
{
    let Some(began) = copies.get(first as usize) else {
        return i;
    };
    let Some(caught) = copies.get(i as usize) else {
        return i;
    };
    if joins(began, caught) { first } else { i }
}

/// The place of the copy that began the frame of the copy at a place, by a table of those before it.
fn first_of(copies: &[Caught<'_>], table: &RecentTable, i: u32) -> u32
    requires { i < length copies.now }
    ensures { (puts : List Put) → IsReady copies.now table.now i puts
        → IsFirst copies.now i result }
{
    let caught = &copies[i as usize];
    match table.get(key_of(caught)) {
        None => i,
        Some(first) => first_by(copies, first, i),
    }
}

/// Puts the place of the copy that began a copy's frame.
fn put_copy(
    alloc: Global,
    table: &mut RecentTable,
    caught: &Caught<'_>,
    first: u32,
) -> Result<(), NoMemory>
    requires { moment_of table.old ≤ caught.now.at }
    ensures knows { OnOk result ((puts : List Put) → Knows table.old puts
        → Knows table.new (put_for caught.now first ∷ puts)) }
    ensures moment { moment_of table.new ≡ caught.now.at }
    ensures horizon { horizon_of table.new ≡ horizon_of table.old }
{
    table.put(alloc, caught.at(), key_of(caught), first)?;
    Ok(())
}

/// For each copy, in the order of time, the place of the copy that began its frame. A copy is of the latest frame of its source and
/// number, if that began less than 2 s before and says the same; else it begins a frame. `NoMemory` where room is refused; beside the
/// answer no more is kept than the copies of some seconds.
pub fn frames_of(alloc: Global, copies: &[Caught<'_>]) -> Result<Vec<u32>, NoMemory>
    requires time { AreInTime copies.now }
    requires few { length copies.now < 2 ^ 32 }
    ensures { IfOk result (λ firsts. AreFirst copies.now firsts.items) }
{
    let mut table = RecentTable::new(alloc, FRAME_TIME);
    let mut firsts = Vec::new(alloc);
    for i in 0..copies.len() {
        let first = first_of(copies, &table, i as u32);
        let caught = &copies[i];
        put_copy(alloc, &mut table, caught, first)?;
        firsts.push(first)?;
    }
    Ok(firsts)
}
