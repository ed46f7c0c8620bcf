//! Whether something is in doubt, the single points of failure, and what is enough for all runs.
ghost use Rattle.std.specs.Prelude.{◌≡◌, ◌++◌, [], IfOk, OnOk};
ghost use Rattle.std.specs.List.{cons_option, flat_map, list_any};
ghost use Rattle.hsr_plan_sweep.specs.Verdict.{is_alone, is_doubtful, is_in_doubt, is_over, is_past, is_whole, most_needed, needed_with, point_in, point_of, points, points_by, spent_with, worse, worst_spent};

use crate::asked::Asked;
use crate::cases::Case;
use crate::counting::Count;
use crate::playing::Played;
use hsr_faults::{Fault, Off};
use hsr_frame::NoMemory;
use hsr_report::Spending;
use std::alloc::Global;

// ---- doubts

/// Whether all sends of a run are complete.
fn is_whole(count: &Count) -> bool
    ensures { result ≡ is_whole count.now }
{
    count.complete == count.sends
}

/// Whether a number is over a limit, if there is one.
pub(crate) fn is_over(limit: Option<u64>, number: u64) -> bool
    ensures { result ≡ is_over limit number }
{
    match limit {
        None => false,
        Some(limit) => limit < number,
    }
}

/// Whether a run passes a limit.
fn is_past(asked: Asked, count: &Count) -> bool
    ensures { result ≡ is_past asked count.now }
{
    is_over(asked.limit_latency, count.latency) || is_over(asked.limit_load, count.load)
}

/// Whether one link or node is off at most.
fn is_alone(case: Case) -> bool
    ensures { result ≡ is_alone case }
{
    match case {
        Case::Undisturbed | Case::Off(Fault::One(_)) => true,
        Case::Off(Fault::Two(_, _)) => false,
    }
}

/// Whether a run is in doubt: it passes a limit, or a send isn't complete where one is off at most.
fn is_doubtful(asked: Asked, played: &Played) -> bool
    ensures { result ≡ is_doubtful asked played.now }
{
    is_past(asked, &played.count) || (is_alone(played.case) && !is_whole(&played.count))
}

/// Whether one of these runs is in doubt.
pub fn is_in_doubt(asked: Asked, plays: &[Played]) -> bool
    ensures { result ≡ is_in_doubt asked plays.now }
{
    plays.iter().any(|played| is_doubtful(asked, played))
}

// ---- single points of failure

/// What alone is off in a case.
fn point_in(case: Case) -> Option<Off>
    ensures { result ≡ point_in case }
{
    match case {
        Case::Off(Fault::One(off)) => Some(off),
        Case::Undisturbed | Case::Off(Fault::Two(_, _)) => None,
    }
}

/// The link or node that is a single point of failure, by a run: it alone is off, and a send isn't complete.
fn point_of(played: &Played) -> Option<Off>
    ensures { result ≡ point_of played.now }
{
    if is_whole(&played.count) {
        None
    } else {
        point_in(played.case)
    }
}

/// Puts a link or node last, if there is one.
fn push_some(list: &mut Vec<Off>, off: Option<Off>) -> Result<(), NoMemory>
    ensures { OnOk result (list.new.items ≡ list.old.items ++ cons_option off []) }
{
    if let Some(off) = off {
        list.push(off)?;
    }
    Ok(())
}

/// Puts the point of a run last, if it tells one.
fn push_point(list: &mut Vec<Off>, played: &Played) -> Result<(), NoMemory>
    ensures { OnOk result (list.new.items ≡ list.old.items ++ points_by played.now) }
{
    push_some(list, point_of(played))
}

/// The single points of failure.
#[tactic(auto, using(hsr_frame::proofs::OneMore::grown))]
pub(crate) fn points(alloc: Global, plays: &[Played]) -> Result<Vec<Off>, NoMemory>
    ensures { IfOk result (λ list. list.items ≡ points plays.now) }
{
    let mut list = Vec::new(alloc);
    for played in plays {
        push_point(&mut list, played)?;
    }
    Ok(list)
}

// ---- what is enough for all

/// The greater of a number and what a run needed.
fn needed_with(most: usize, played: &Played) -> usize
    ensures { result ≡ needed_with most played.now }
{
    most.max(played.count.needed)
}

/// The most entries that one of these runs needed.
#[tactic(auto, using(crate::proofs::Listing::needed_step))]
pub(crate) fn most_needed(plays: &[Played]) -> usize
    ensures { result ≡ most_needed plays.now }
{
    let mut most = 0;
    for played in plays {
        most = needed_with(most, played);
    }
    most
}

/// The first of two that isn't within budget, or else the greater.
fn worse(first: Spending, second: Spending) -> Spending
    ensures { result ≡ worse first second }
{
    match (first, second) {
        (Spending::Within(one), Spending::Within(other)) => Spending::Within(one.max(other)),
        (Spending::Within(_), second) => second,
        (first, _) => first,
    }
}

/// The worse of what was spent, and of what a run spent.
fn spent_with(most: Spending, played: &Played) -> Spending
    ensures { result ≡ spent_with most played.now }
{
    worse(most, played.count.spending)
}

/// The worst that one of these runs spent of its tables.
#[tactic(auto, using(crate::proofs::Listing::spent_step))]
pub(crate) fn worst_spent(plays: &[Played]) -> Spending
    ensures { result ≡ worst_spent plays.now }
{
    let mut most = Spending::Within(0);
    for played in plays {
        most = spent_with(most, played);
    }
    most
}
