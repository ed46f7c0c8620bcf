//! Runs of boxes that are shared with one child, and which of them stay: boxes of children that alternate can't all stand on one side.
use crate::stops::{Joint, Stop};
use hsr_frame::NoMemory;
use std::alloc::Global;

/// Boxes of one child that no box of another parts.
#[derive(Clone, Copy)]
struct Run {
    child: usize,
    length: usize,
}

/// A box that is shared with a child, by its place among stops.
#[derive(Clone, Copy)]
struct Mark {
    at: usize,
    child: usize,
}

/// The child with which a stop shares its box.
pub(crate) fn child_of(stop: Stop) -> Option<usize> {
    match stop.joint {
        Joint::Child(child) => Some(child),
        _ => None,
    }
}

/// The boxes that are shared with children, in the order of the stops.
fn marks_of(alloc: Global, stops: &[Stop]) -> Result<Vec<Mark>, NoMemory> {
    let mut marks = Vec::new(alloc);
    for (at, stop) in stops.iter().enumerate() {
        if let Some(child) = child_of(*stop) {
            marks.push(Mark { at, child })?;
        }
    }
    Ok(marks)
}

/// The places of the first and of the last box that is shared with a child.
pub(crate) fn ends_of(stops: &[Stop]) -> Option<(usize, usize)> {
    let mut ends = None;
    for (at, stop) in stops.iter().enumerate() {
        if child_of(*stop).is_some() {
            ends = match ends {
                Some((first, _)) => Some((first, at)),
                None => Some((at, at)),
            };
        }
    }
    ends
}

/// How far a mark lies before the next one round a ring of so many stops.
fn gap(a: Mark, b: Mark, stops: usize) -> usize {
    if b.at > a.at {
        b.at.saturating_sub(a.at)
    } else {
        b.at.saturating_add(stops).saturating_sub(a.at)
    }
}

/// The mark behind one, round the ring.
fn mark_behind(marks: &[Mark], at: usize) -> Option<Mark> {
    match marks.get(at.saturating_add(1)) {
        Some(mark) => Some(*mark),
        None => marks.first().copied(),
    }
}

/// Whether all boxes are shared with one child.
fn is_of_one(marks: &[Mark]) -> bool {
    marks
        .iter()
        .all(|mark| marks.iter().all(|other| mark.child == other.child))
}

/// Behind which mark the widest gap between boxes of two children ends, or of one child, where there is one: there the side of the
/// children begins.
fn widest(marks: &[Mark], stops: usize) -> usize {
    let is_of_one = is_of_one(marks);
    let mut best = (0, 0);
    for (at, mark) in marks.iter().enumerate() {
        if let Some(next) = mark_behind(marks, at) {
            let gap = gap(*mark, next, stops);
            let counts = is_of_one || mark.child != next.child;
            if counts && (gap > best.0 || (gap == best.0 && next.at > best.1)) {
                best = (gap, next.at);
            }
        }
    }
    best.1
}

/// Where the side of the children of a ring begins.
pub(crate) fn begin_of(alloc: Global, stops: &[Stop]) -> Result<usize, NoMemory> {
    let marks = marks_of(alloc, stops)?;
    Ok(widest(marks.as_slice(), stops.len()))
}

/// Counts one more box of a child.
fn add_to_runs(runs: &mut Vec<Run>, child: usize) -> Result<(), NoMemory> {
    if let Some(last) = runs.last_mut() {
        if last.child == child {
            last.length = last.length.saturating_add(1);
            return Ok(());
        }
    }
    runs.push(Run { child, length: 1 })?;
    Ok(())
}

/// The runs of stops.
fn runs_of(alloc: Global, stops: &[Stop]) -> Result<Vec<Run>, NoMemory> {
    let mut runs = Vec::new(alloc);
    for stop in stops {
        if let Some(child) = child_of(*stop) {
            add_to_runs(&mut runs, child)?;
        }
    }
    Ok(runs)
}

/// Whether a run is the longest of its child: the last of several.
fn stays(runs: &[Run], at: usize, run: Run) -> bool {
    !runs.iter().enumerate().any(|(other, its)| {
        its.child == run.child
            && (its.length > run.length || (its.length == run.length && other > at))
    })
}

/// Whether each run stays.
fn staying(alloc: Global, runs: &[Run]) -> Result<Vec<bool>, NoMemory> {
    let mut all = Vec::new(alloc);
    for (at, run) in runs.iter().enumerate() {
        all.push(stays(runs, at, *run))?;
    }
    Ok(all)
}

/// Frees the boxes of runs that don't stay. They are drawn twice.
pub(crate) fn keep_longest(alloc: Global, stops: &mut Vec<Stop>) -> Result<(), NoMemory> {
    let runs = runs_of(alloc, stops.as_slice())?;
    let staying = staying(alloc, runs.as_slice())?;
    free_others(stops, staying.as_slice());
    Ok(())
}

/// Frees the boxes of the runs that don't stay.
fn free_others(stops: &mut Vec<Stop>, staying: &[bool]) {
    let mut run = 0usize;
    let mut current = None;
    for stop in stops.iter_mut() {
        if let Joint::Child(child) = stop.joint {
            if let Some(before) = current {
                if before != child {
                    run = run.saturating_add(1);
                }
            }
            current = Some(child);
            if staying.get(run).copied() != Some(true) {
                stop.joint = Joint::Free;
            }
        }
    }
}
