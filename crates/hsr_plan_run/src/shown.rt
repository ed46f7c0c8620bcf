//! What is shown of a plan's run.
ghost use Rattle.std.specs.Prelude.{IfErr, IfOk, IsOk, Ok};
ghost use Rattle.hsr_duptable.specs.Table.{IsTableSize};
ghost use Rattle.hsr_table_size.specs.Sizes.{capacity_of};
ghost use Rattle.hsr_commands.specs.ScenarioRun.{IsReported};
ghost use Rattle.hsr_commands.specs.Shown.{IsShownOf, text_if};
ghost use Rattle.hsr_plan_run.specs.Runs.{IsRunIn, IsRunOf, IsUnrun};
ghost use Rattle.hsr_plan_scenario.specs.Runs.{HasNoRun, IsUnrunOf};
ghost use Rattle.hsr_plan_scenario.specs.Says.{names_meant_by, scenario_meant};

use crate::naming::naming_of;
use crate::question::Question;
use crate::unplayed::line_of_run;
use hsr_commands::{Notes, ShownRun, asks_budget, finding_of, shown_by};
use hsr_finished_run::Closed;
use hsr_frame::NoMemory;
use hsr_plan_scenario::{Line, Trouble, line_of, moved, node_names, run_meant, words};
use hsr_plan_schedule::Meaning;
use hsr_plan_text::{Plan, read};
use hsr_report::Finding;
use hsr_table_size::{TableSize, at_size};
use std::alloc::Global;

/// Notes what was found of a run, by the names of a plan; nothing if allocation fails.
fn note<const C: usize>(
    alloc: Global,
    meaning: &Meaning,
    closed: &Closed<C>,
    finding: Finding,
    question: Question<'_>,
    notes: &mut Notes,
) {
    // A failed allocation leaves out what is explained, and nothing else: the status is that of the run.
    if let Ok(names) = node_names(alloc, meaning.nodes.as_slice()) {
        let budget = asks_budget(question.showing);
        notes.of_named_run(alloc, names.as_slice(), closed, finding, budget);
    }
}

/// Audits a finished run of what is meant, and forms what is shown of it.
fn audited<const C: usize>(
    alloc: Global,
    meaning: &Meaning,
    closed: &Closed<C>,
    question: Question<'_>,
) -> Result<ShownRun, NoMemory>
    ensures { IfOk result (IsShownOf question.entry.showing (Ok (names_meant_by meaning.now))
        (text_if question.entry.folder) closed.now) }
{
    let showing = question.showing;
    // Audited for a transcript too, since the status tells what was found.
    let Ok(finding) = finding_of(alloc, closed, showing.scope) else {
        return Err(NoMemory);
    };
    let naming = naming_of(alloc, meaning, closed, showing.names)?;
    match shown_by(alloc, closed, &naming, finding, showing, question.folder) {
        Ok(shown) => Ok(shown),
        Err(_) => Err(NoMemory),
    }
}

/// Plays what is meant, with tables of `C` entries, and forms what is shown of its run; or the line of what is wrong.
#[tactic(auto, using(crate::proofs::Reported::reported_so))]
fn reported<const C: usize>(
    alloc: Global,
    meaning: &Meaning,
    question: Question<'_>,
    notes: &mut Notes,
) -> Result<ShownRun, Line>
    requires { IsTableSize C }
    ensures shown { IfOk result (IsReported C question.entry.showing (text_if question.entry.folder)
        (Ok (scenario_meant meaning.now)) (Ok (names_meant_by meaning.now))) }
    ensures none { IfErr result (λ line. IsOk line → HasNoRun C meaning.now) }
{
    match run_meant::<C>(alloc, meaning) {
        Ok(closed) => match audited(alloc, meaning, &closed, question) {
            Ok(shown) => {
                note(alloc, meaning, &closed, shown.finding, question, notes);
                Ok(shown)
            }
            Err(_) => Err(Err(NoMemory)),
        },
        Err(fault) => Err(line_of_run(alloc, &fault)),
    }
}

/// What is shown of the run of a plan, with tables of `C` entries; or the line of what is wrong.
#[tactic(auto, using(crate::proofs::Reported::unplayed_so))]
fn shown_of_plan<const C: usize>(
    alloc: Global,
    text: &str,
    plan: &Plan,
    question: Question<'_>,
    notes: &mut Notes,
) -> Result<ShownRun, Line>
    requires { IsTableSize C }
    ensures shown { IfOk result (IsRunOf C question.entry.showing (text_if question.entry.folder)
        plan.now) }
    ensures none { IfErr result (λ line. IsOk line → IsUnrunOf C plan.now) }
{
    match moved::<C>(alloc, plan) {
        Ok(meaning) => match reported::<C>(alloc, &meaning, question, notes) {
            Ok(shown) => Ok(shown),
            Err(line) => Err(line),
        },
        Err(trouble) => Err(line_of(alloc, text, &trouble)),
    }
}

/// What is shown of the run of a plan, with tables of this size; or the line of what is wrong.
fn shown_with(
    alloc: Global,
    table: TableSize,
    text: &str,
    plan: &Plan,
    question: Question<'_>,
    notes: &mut Notes,
) -> Result<ShownRun, Line>
    ensures shown { IfOk result (IsRunOf (capacity_of table) question.entry.showing
        (text_if question.entry.folder) plan.now) }
    ensures none { IfErr result (λ line. IsOk line → IsUnrunOf (capacity_of table) plan.now) }
{
    at_size!(table => shown_of_plan[](alloc, text, plan, question, notes))
}

/// What is shown of the run of what octets say as a plan, with tables of this size; or the line of what is wrong.
pub(crate) fn shown_in(
    alloc: Global,
    table: TableSize,
    octets: &[u8],
    question: Question<'_>,
    notes: &mut Notes,
) -> Result<ShownRun, Line>
    ensures shown { IfOk result (IsRunIn (capacity_of table) question.entry.showing
        (text_if question.entry.folder) octets.now) }
    ensures none { IfErr result (λ line. IsOk line → IsUnrun (capacity_of table) octets.now) }
{
    let Ok(text) = str::from_utf8(octets) else {
        return Err(words(alloc, "fault: plan 1:1 no UTF-8"));
    };
    match read(alloc, text) {
        Ok(plan) => match shown_with(alloc, table, text, &plan, question, notes) {
            Ok(shown) => Ok(shown),
            Err(line) => Err(line),
        },
        Err(fault) => Err(line_of(alloc, text, &Trouble::Plan(fault))),
    }
}
