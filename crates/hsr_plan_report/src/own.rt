//! What the plan's own run comes to, with tables of 512 entries, and the verdict on the plan in any order.
ghost use Rattle.std.specs.Prelude.{◌≡◌, IfErr, IfOk, IsOk};
ghost use Rattle.hsr_plan_scenario.specs.Runs.{HasNoRun, IsKnownRun, IsUnrunOf};
ghost use Rattle.hsr_plan_report.specs.Own.{AreStreamsOf, IsCalled, IsOwn, IsOwnOf, IsOwnRun, IsRunOfMeaning, is_certain};
ghost use Rattle.hsr_report.specs.Report.{finding_line, spending_text};
ghost use Rattle.hsr_plan_certify.specs.Verdicts.{IsCertification};

use crate::cases::tally_of;
use crate::streams::{Sendings, stream_rows};
use hsr_deliveries::deliveries;
use hsr_explanation::explain_finding;
use hsr_finished_run::Closed;
use hsr_frame::NoMemory;
use hsr_latency::{Latency, latency_of};
use hsr_load::{Load, load_of};
use hsr_naming::Naming;
use hsr_plan_certify::{Certification, certification_of};
use hsr_plan_page::{StreamRow, Tally};
use hsr_plan_scenario::{Line, line_of, moved, node_names, run_meant, streams_meant, words};
use hsr_plan_schedule::Meaning;
use hsr_plan_sweep::{Audience, Count, counted, outcomes, streams_of};
use hsr_plan_text::Plan;
use hsr_report::{Finding, put_finding, put_spent};
use hsr_ring::Unfinished;
use hsr_run_names::names_of;
use hsr_table_size::TableSize;
use std::alloc::Global;

/// How many entries the tables have: those of `--table large`, as in sweeps.
pub(crate) const TABLE: usize = 512;

/// What was counted of a run, and of each stream.
#[derive(Drop)]
struct Counted {
    count: Count,
    streams: Vec<StreamRow>,
}

/// What the plan's own run comes to: its numbers; the budget in words, the line of what the audit of networks found, and what that means; what
/// came of each stream; loads and latencies; and what sends are called.
#[derive(Drop)]
pub(crate) struct OwnRun {
    pub(crate) tally: Tally,
    pub(crate) budget: Vec<u8>,
    pub(crate) found: Vec<u8>,
    pub(crate) is_certified: bool,
    pub(crate) explained: Vec<Vec<u8>>,
    pub(crate) streams: Vec<StreamRow>,
    pub(crate) load: Load,
    pub(crate) latency: Latency,
    pub(crate) naming: Naming,
}

/// The run, and the verdict in any order.
#[derive(Drop)]
pub(crate) struct Own {
    pub(crate) run: OwnRun,
    pub(crate) certification: Certification,
}

/// What is counted of a finished run of what a plan means.
fn counted_run(
    alloc: Global,
    plan: &Plan,
    meaning: &Meaning,
    closed: &Closed<TABLE>,
) -> Result<Counted, NoMemory>
    ensures count { IfOk result (λ it. IsRunOfMeaning plan.now meaning.now closed.now.run it.count) }
    ensures streams { IfOk result (λ it. AreStreamsOf plan.now meaning.now closed.now.run it.streams.items) }
{
    let audience = Audience {
        nodes: meaning.nodes.as_slice(),
        streams: plan.streams.as_slice(),
        events: plan.events.as_slice(),
    };
    let streams = streams_of(
        alloc,
        meaning.sends.as_slice(),
        meaning.orders.as_slice(),
        closed.topology().places().len(),
    )?;
    let count = counted(alloc, closed, &audience, streams.as_slice())?;
    let deliveries = deliveries(alloc, closed)?;
    let sends = deliveries.sends.as_slice();
    let outcomes = outcomes(alloc, &audience, streams.as_slice(), sends)?;
    let sendings = Sendings {
        audience: &audience,
        streams: streams.as_slice(),
        deliveries: sends,
        outcomes: outcomes.as_slice(),
    };
    let names = meaning.streams.as_slice();
    let streams = stream_rows(alloc, closed, plan, names, sendings)?;
    Ok(Counted { count, streams })
}

/// What nodes and sends of a run are called.
fn naming_of(alloc: Global, meaning: &Meaning, closed: &Closed<TABLE>) -> Result<Naming, NoMemory>
    ensures { IfOk result (IsCalled meaning.now closed.now.run) }
{
    let nodes = node_names(alloc, meaning.nodes.as_slice())?;
    let streams = streams_meant(alloc, meaning)?;
    let names = names_of(alloc, closed, nodes, streams.as_slice())?;
    Ok(Naming::Names(names))
}

/// The line of what was found of a run.
fn found_line(alloc: Global, naming: &Naming, finding: Finding) -> Result<Vec<u8>, NoMemory>
    ensures { IfOk result (λ text. text.items ≡ finding_line naming.now finding) }
{
    let mut text = Vec::new(alloc);
    put_finding(&mut text, naming, finding)?;
    Ok(text)
}

/// Whether the audit certifies a run.
fn is_certain(finding: Finding) -> bool
    ensures { result ≡ is_certain finding }
{
    match finding {
        Finding::Certified(_) => true,
        Finding::Doubt(_) => false,
    }
}

/// What was spent of tables, in words.
fn budget_text(alloc: Global, naming: &Naming, count: &Count) -> Result<Vec<u8>, NoMemory>
    ensures { IfOk result (λ text. text.items ≡ spending_text naming.now count.now.spending) }
{
    let mut text = Vec::new(alloc);
    put_spent(&mut text, naming, count.spending)?;
    Ok(text)
}

/// What a finished run of what a plan means comes to.
fn own_run(
    alloc: Global,
    plan: &Plan,
    meaning: &Meaning,
    closed: &Closed<TABLE>,
) -> Result<OwnRun, NoMemory>
    ensures { IfOk result (IsOwnRun plan.now meaning.now closed.now.run) }
{
    let Counted { count, streams } = counted_run(alloc, plan, meaning, closed)?;
    let load = load_of(alloc, closed)?;
    let latency = latency_of(alloc, closed)?;
    let naming = naming_of(alloc, meaning, closed)?;
    let names = node_names(alloc, meaning.nodes.as_slice())?;
    let explanation = explain_finding(alloc, closed, names.as_slice(), count.finding)?;
    Ok(OwnRun {
        tally: tally_of(&count),
        budget: budget_text(alloc, &naming, &count)?,
        found: found_line(alloc, &naming, count.finding)?,
        is_certified: is_certain(count.finding),
        explained: explanation.lines,
        streams,
        load,
        latency,
        naming,
    })
}

/// The line of what is meant that leads to no finished run; there is none if allocation failed.
fn line_of_run(alloc: Global, fault: &Unfinished) -> Line
    ensures { IsOk result → IsKnownRun fault.now }
{
    match fault {
        Unfinished::Memory => Err(NoMemory),
        Unfinished::Check(_) | Unfinished::Step(_, _) => words(
            alloc,
            "fault: plan 1:1 its run doesn't end, or refuses a step: run its scenario",
        ),
    }
}

/// What the run comes to of what a plan means, or the line of what is wrong.
fn ran(alloc: Global, plan: &Plan, meaning: &Meaning) -> Result<OwnRun, Line>
    ensures run { IfOk result (λ own. IsOwn plan.now meaning.now own) }
    ensures none { IfErr result (λ line. IsOk line → HasNoRun 512 meaning.now) }
{
    match run_meant::<TABLE>(alloc, meaning) {
        Ok(closed) => match own_run(alloc, plan, meaning, &closed) {
            Ok(own) => Ok(own),
            Err(_) => Err(Err(NoMemory)),
        },
        Err(fault) => Err(line_of_run(alloc, &fault)),
    }
}

/// The run of what a plan means, and the verdict on it in any order; or the line of what is wrong.
fn own_meant(
    alloc: Global,
    text: &str,
    plan: &Plan,
    meaning: Meaning,
    within: Option<u64>,
) -> Result<Own, Line>
    ensures own { IfOk result (λ own. IsOwn plan.now meaning own.run) }
    ensures certified { IfOk result (λ own. IsCertification 512 within text.now meaning own.certification.verdict own.certification.line.items) }
    ensures none { IfErr result (λ line. IsOk line → HasNoRun 512 meaning) }
{
    match ran(alloc, plan, &meaning) {
        Ok(run) => match certification_of(alloc, TableSize::Large, text, meaning, within) {
            Ok(certification) => Ok(Own { run, certification }),
            Err(_) => Err(Err(NoMemory)),
        },
        Err(line) => Err(line),
    }
}

/// The run of a plan that this text says, and the verdict on it in any order; or the line of what is wrong.
pub(crate) fn own_of(
    alloc: Global,
    text: &str,
    plan: &Plan,
    within: Option<u64>,
) -> Result<Own, Line>
    ensures own { IfOk result (IsOwnOf text.now plan.now within) }
    ensures none { IfErr result (λ line. IsOk line → IsUnrunOf 512 plan.now) }
{
    match moved::<TABLE>(alloc, plan) {
        Ok(meaning) => own_meant(alloc, text, plan, meaning, within),
        Err(trouble) => Err(line_of(alloc, text, &trouble)),
    }
}
