//! The runs of all cases, several at a time.
ghost use Rattle.std.specs.Prelude.{◌≡◌, ◌++◌, ◌<◌, [], false, length, IfErr, IfOk, IfSome, MatchResult, None, Ok, OnOk};
ghost use Rattle.hsr_plan_sweep.specs.Refusals.{IsKnown, IsUncounted, IsUnplayedAmong, TellsCase};
ghost use Rattle.hsr_plan_sweep.specs.Runs.{AddsPlays, ArePlayed, IfSays, IsCountOf};
ghost use Rattle.hsr_plan_sweep.specs.Variants.{bared, plan_in, varied};
ghost use Rattle.hsr_plan_sweep.specs.declared.running.Trouble.TheVariants.{Memory as NoRoom};

use crate::cases::Case;
use crate::counting::Count;
use crate::progress::Progress;
use crate::running::{Trouble, count_of};
use crate::variants::{Ground, vary};
use hsr_plan_text::{Plan, read};
use rayon::prelude::*;
use std::alloc::{AllocError, Global};
use std::io::Write;
use std::marker::Model;
use std::thread::Threads;

/// How many runs there are between two looks at how far a sweep is: enough for the processors of a machine.
const AT_ONCE: usize = 64;

/// What is off in a run, and what is counted of it.
#[derive(Clone, Copy, PartialEq, Eq)]
pub struct Played {
    pub case: Case,
    pub count: Count,
}

/// A plan's text, whether its own events are left out, and among what something is off.
#[derive(Drop)]
pub(crate) struct Swept<'a> {
    pub text: &'a str,
    pub without_events: bool,
    pub ground: Ground<'a>,
}

impl<'a> Model for Swept<'a> {
    ghost use Rattle.hsr_plan_sweep.specs.Variants.{Swept};

    ghost Value = { Swept };

    ghost view = { λ s. record { text = s.text.now; without_events = s.without_events; ground = s.ground } };
}

/// Takes a plan's own events out of it, where they are left out.
pub(crate) fn bare(alloc: Global, plan: &mut Plan, without_events: bool)
    ensures { plan.new ≡ bared without_events plan.old }
{
    if without_events {
        plan.events = Vec::new(alloc);
    }
}

/// What a text says as a plan, which was read before, without its own events where they are left out.
fn plan_again(alloc: Global, text: &str, without_events: bool) -> Result<Plan, Trouble>
    ensures plan { IfOk result (λ plan. plan_in without_events text.now ≡ Ok plan) }
    ensures none { IfErr result (λ trouble. trouble ≡ NoRoom) }
{
    match read(alloc, text) {
        Ok(mut plan) => {
            bare(alloc, &mut plan, without_events);
            Ok(plan)
        }
        // Only for memory: else it was refused when it was read first.
        Err(_) => Err(Trouble::Memory),
    }
}

/// The plan of a case.
fn variant(alloc: Global, swept: &Swept<'_>, case: Case) -> Result<Plan, Trouble>
    ensures plan { IfOk result (λ plan. IfSays (plan_in swept.now.without_events swept.now.text) (λ first.
        plan ≡ varied swept.now.ground case first)) }
    ensures none { IfErr result (λ trouble. trouble ≡ NoRoom) }
{
    // Each thread reads the text for itself, so that none needs a copy of the plan.
    match plan_again(alloc, swept.text, swept.without_events) {
        Ok(mut plan) => match vary(alloc, &mut plan, &swept.ground, case) {
            Ok(()) => Ok(plan),
            Err(_) => Err(Trouble::Memory),
        },
        Err(trouble) => Err(trouble),
    }
}

/// The count of a plan as that of a case.
fn counted(alloc: Global, plan: &Plan, case: Case) -> Result<Played, Trouble>
    ensures case { IfOk result (λ played. played.case ≡ case) }
    ensures count { IfOk result (λ played. IsCountOf plan.now played.count) }
    ensures none { IfErr result (λ trouble. IsKnown trouble → IsUncounted plan.now) }
{
    match count_of(alloc, plan) {
        Ok(count) => Ok(Played { case, count }),
        Err(trouble) => Err(trouble),
    }
}

/// The count of a case.
#[tactic(auto, using(crate::proofs::Plays::told_by_count, crate::proofs::Plays::told_no_memory))]
fn play(alloc: Global, swept: &Swept<'_>, case: Case) -> Result<Played, Trouble>
    ensures { TellsCase (plan_in swept.now.without_events swept.now.text) swept.now.ground case result }
{
    match variant(alloc, swept, case) {
        Ok(plan) => counted(alloc, &plan, case),
        Err(trouble) => Err(trouble),
    }
}

/// The counts of some cases, by as many threads as there are processors.
fn collected<T: Threads + Sync>(
    rt: &T,
    alloc: Global,
    swept: &Swept<'_>,
    cases: &[Case],
) -> Result<Result<Vec<Played>, Trouble>, AllocError>
    ensures { IfOk result (λ played. MatchResult played
        (λ plays. ArePlayed (plan_in swept.now.without_events swept.now.text) swept.now.ground cases.now plays.items)
        (λ trouble. IsKnown trouble → IsUnplayedAmong (plan_in swept.now.without_events swept.now.text) swept.now.ground cases.now)) }
{
    // A case is a whole run, so even two of them are worth two threads.
    cases
        .par_iter()
        .with_min_len(1)
        .map(
            |case: &Case| -> Result<Played, Trouble>
                ensures { TellsCase (plan_in swept.entry.now.without_events swept.entry.now.text) swept.entry.now.ground case.now result }
            { play(alloc, swept, *case) },
        )
        .collect(rt, alloc)
}

/// The counts of some cases, or why there are none.
fn play_some<T: Threads + Sync>(
    rt: &T,
    alloc: Global,
    swept: &Swept<'_>,
    cases: &[Case],
) -> Result<Vec<Played>, Trouble>
    ensures { MatchResult result
        (λ plays. ArePlayed (plan_in swept.now.without_events swept.now.text) swept.now.ground cases.now plays.items)
        (λ trouble. IsKnown trouble → IsUnplayedAmong (plan_in swept.now.without_events swept.now.text) swept.now.ground cases.now) }
{
    match collected(rt, alloc, swept, cases) {
        Ok(played) => played,
        Err(_) => Err(Trouble::Memory),
    }
}

/// Puts counts behind others.
fn append(plays: &mut Vec<Played>, more: &[Played]) -> Result<(), Trouble>
    ensures more { OnOk result (plays.new.items ≡ plays.old.items ++ more.now) }
    ensures none { IfErr result (λ trouble. trouble ≡ NoRoom) }
{
    match plays.extend_from_slice(more) {
        Ok(()) => Ok(()),
        Err(_) => Err(Trouble::Memory),
    }
}

/// Puts the counts of some cases behind others.
#[tactic(auto, using(crate::proofs::Plays::appended))]
fn play_next<T: Threads + Sync>(
    rt: &T,
    alloc: Global,
    swept: &Swept<'_>,
    cases: &[Case],
    plays: &mut Vec<Played>,
) -> Result<(), Trouble>
    ensures { MatchResult result
        (λ _. AddsPlays (plan_in swept.now.without_events swept.now.text) swept.now.ground cases.now plays.old.items plays.new.items)
        (λ trouble. IsKnown trouble → IsUnplayedAmong (plan_in swept.now.without_events swept.now.text) swept.now.ground cases.now) }
{
    match play_some(rt, alloc, swept, cases) {
        Ok(more) => append(plays, more.as_slice()),
        Err(trouble) => Err(trouble),
    }
}

/// The first cases, so many of them at most that are played at once, and the others; none where none is left.
fn next_some(cases: &[Case]) -> Option<(&[Case], &[Case])>
    ensures all { IfSome result (λ p. p.0.now ++ p.1.now ≡ cases.now) }
    ensures less { IfSome result (λ p. length p.1.now < length cases.now) }
    ensures none { result ≡ None → cases.now ≡ [] }
{
    if cases.is_empty() {
        return None;
    }
    Some(cases.split_at(cases.len().min(AT_ONCE)))
}

/// The counts of all cases, in their order. Where that is asked for, `errors` is told how far it is.
#[tactic(auto, using(crate::proofs::Plays::none_so_far, crate::proofs::Plays::more_so_far, crate::proofs::Plays::all_so_far, crate::proofs::Plays::unplayed_so_far))]
pub(crate) fn play_all<T: Threads + Sync, E: Write>(
    rt: &T,
    alloc: Global,
    swept: &Swept<'_>,
    cases: &[Case],
    is_shown: bool,
    errors: &mut E,
) -> Result<Vec<Played>, Trouble>
    ensures played { IfOk result (λ plays.
        ArePlayed (plan_in swept.now.without_events swept.now.text) swept.now.ground cases.now plays.items) }
    ensures none { IfErr result (λ trouble. IsKnown trouble
        → IsUnplayedAmong (plan_in swept.now.without_events swept.now.text) swept.now.ground cases.now) }
    ensures hidden { is_shown ≡ false → E.contents errors.new ≡ E.contents errors.old }
{
    let progress = Progress {
        is_shown,
        runs: cases.len(),
    };
    let mut plays = Vec::new(alloc);
    let mut rest = cases;
    // What is left is a variable, since the loop's invariant speaks of it.
    while let Some((some, others)) = next_some(rest) {
        progress.show(alloc, errors, plays.len());
        match play_next(rt, alloc, swept, some, &mut plays) {
            Ok(()) => {}
            Err(trouble) => return Err(trouble),
        }
        rest = others;
    }
    Ok(plays)
}
