//! Numbers of a run that others of its group had.
ghost use Rattle.std.specs.Prelude.{◌≡◌, ℕ, ◌+◌, ◌<◌, ◌∷◌, List, length, map, reverse, slice_get, unwrap_or, IfOk};
ghost use Rattle.hsr_number_runs.specs.Elsewhere.{elsewhere_in};
ghost use Rattle.hsr_number_runs.specs.Nearest.{AreTold, IsTold, told_behind};
ghost use Rattle.hsr_number_runs.specs.declared.run.InRun.{InRun};

use crate::run::InRun;
use hsr_frame::NoMemory;
use std::alloc::Global;

/// A sender's nearest number in front of others: its run, and its place among all.
#[derive(Clone, Copy)]
struct Nearest {
    run: u32,
    place: usize,
}

/// What is told of a sender so far: how many numbers others had, and its nearest number.
#[derive(Clone, Copy)]
struct Told {
    count: u64,
    nearest: Option<Nearest>,
}

/// How many numbers stand between a sender's nearest number and its next one at a place, if that is of the same run.
fn between(nearest: Option<Nearest>, run: u32, place: usize) -> u64
    ensures { result ≡ unwrap_or (told_behind place run nearest) 0 }
{
    match nearest {
        None => 0,
        Some(own) => {
            if own.run == run {
                (place.saturating_sub(own.place).saturating_sub(1)) as u64
            } else {
                0
            }
        }
    }
}

/// What is told of a sender, with its number at a place.
fn with_number(told: Told, p: InRun, place: usize) -> Told
    ensures { (before : List InRun) → IsTold before place p.sender told → IsTold (p ∷ before) (place + 1) p.sender result }
{
    let count = told
        .count
        .saturating_add(between(told.nearest, p.run, place));
    Told {
        count,
        nearest: Some(Nearest { run: p.run, place }),
    }
}

/// Puts the number at a place.
fn put_number(told: &mut Vec<Told>, p: InRun, place: usize)
    ensures told { (before : List InRun) → AreTold before place told.old.items → AreTold (p ∷ before) (place + 1) told.new.items }
    ensures long { length told.new.items ≡ length told.old.items }
{
    let sender = p.sender as usize;
    if sender < told.len() {
        told[sender] = with_number(told[sender], p, place);
    }
}

/// The counts that are told.
fn counts_in(alloc: Global, told: &[Told]) -> Result<Vec<u64>, NoMemory>
    ensures { IfOk result (λ counts. counts.items ≡ map (λ t. t.count) told.now) }
{
    let mut counts = Vec::new(alloc);
    for own in told {
        counts.push(own.count)?;
    }
    Ok(counts)
}

/// Of each of so many senders, how many numbers between two of its own in a run others of its group had. Numbers are in the order of
/// runs, and extended numbers in each. `NoMemory` where room is refused.
pub fn elsewhere_of(alloc: Global, in_runs: &[InRun], senders: usize) -> Result<Vec<u64>, NoMemory>
    ensures long { IfOk result (λ counts. length counts.items ≡ senders) }
    ensures each { IfOk result (λ counts. (sender : ℕ) → sender < senders
        → slice_get counts.items sender ≡ Some (elsewhere_in sender (reverse in_runs.now))) }
{
    let nothing = Told {
        count: 0,
        nearest: None,
    };
    let mut told = vec![in alloc; nothing; senders]?;
    for i in 0..in_runs.len() {
        put_number(&mut told, in_runs[i], i);
    }
    let counts = counts_in(alloc, told.as_slice())?;
    Ok(counts)
}
