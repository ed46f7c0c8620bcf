//! All that a page says of a plan: its own run, its verdict in any order, its sweeps, and what faults cut off.
ghost use Rattle.std.specs.Prelude.{◌≡◌, Ok, false, true, IfErr, IfOk, IsOk};
ghost use Rattle.hsr_plan_scenario.specs.Refusals.{MeansNothing};
ghost use Rattle.hsr_plan_sweep.specs.Refusals.{IsUnswept};
ghost use Rattle.hsr_plan_sweep.specs.Variants.{plan_in};
ghost use Rattle.hsr_plan_report.specs.Gathered.{AreFaultRows, AreFaultRowsOf, IsBareOf, IsSweep, IsSweepOf, IsUnreportedBare, asked_with};

use crate::asked::Asked;
use crate::cases::case_rows;
use crate::outages::outage_rows;
use hsr_certify_text::make_coarse;
use hsr_frame::NoMemory;
use hsr_plan_page::{CaseRow, OutageRow};
use hsr_plan_scenario::{Line, Trouble, line_of};
use hsr_plan_schedule::{Meaning, meaning_of};
use hsr_plan_sweep::{Asked as SweepAsked, SweptPlan, naming_of, play_plan};
use hsr_plan_text::Plan;
use std::alloc::Global;
use std::io::Write;
use std::marker::Sync;
use std::thread::Threads;

/// What is asked of a sweep for a page, with the plan's own events or without them.
pub(crate) fn asked_with(asked: Asked<'_>, without_events: bool) -> SweepAsked
    ensures { result ≡ asked_with asked.entry without_events }
{
    SweepAsked {
        at: asked.at,
        without_events,
        pairs: false,
        part: None,
        limit_load: asked.limit_load,
        limit_latency: asked.limit_latency,
    }
}

/// A sweep: what was played, and its rows.
#[derive(Drop)]
pub(crate) struct Swept {
    pub(crate) played: SweptPlan,
    pub(crate) rows: Vec<CaseRow>,
}

/// The sweep that was played, with its rows.
fn with_rows(alloc: Global, played: SweptPlan) -> Result<Swept, NoMemory>
    ensures { IfOk result (λ swept. IsSweep played swept) }
{
    let nodes = played.meaning.nodes.as_slice();
    let links = played.meaning.topology.links();
    let naming = naming_of(alloc, nodes)?;
    let rows = case_rows(alloc, nodes, links, &naming, played.plays.as_slice())?;
    Ok(Swept { played, rows })
}

/// The sweep of a plan that this text says, or the line of what is wrong.
pub(crate) fn sweep_of<T: Threads + Sync, E: Write>(
    rt: &T,
    alloc: Global,
    text: &str,
    plan: &Plan,
    asked: SweepAsked,
    is_shown: bool,
    errors: &mut E,
) -> Result<Swept, Line>
    requires { plan_in asked.without_events text.now ≡ Ok plan.now }
    ensures swept { IfOk result (λ swept. IsSweepOf plan.now asked swept) }
    ensures none { IfErr result (λ line. IsOk line → IsUnswept plan.now asked) }
    ensures hidden { is_shown ≡ false → E.contents errors.new ≡ E.contents errors.old }
{
    match play_plan(rt, alloc, text, plan, asked, is_shown, errors) {
        Ok(played) => match with_rows(alloc, played) {
            Ok(swept) => Ok(swept),
            Err(_) => Err(Err(NoMemory)),
        },
        Err(line) => Err(line),
    }
}

/// What is asked of the plan without its own events: its sweep, where it has some; and what faults cut off.
#[derive(Drop)]
pub(crate) struct Bare {
    pub(crate) swept: Option<Swept>,
    pub(crate) outages: Vec<OutageRow>,
}

/// What faults cut off of a plan that this text says, or the line of what is wrong.
fn fault_rows(
    alloc: Global,
    text: &str,
    plan: &Plan,
    within: Option<u64>,
) -> Result<Vec<OutageRow>, Line>
    ensures rows { IfOk result (λ rows. AreFaultRows plan.now within rows.items) }
    ensures none { IfErr result (λ line. IsOk line → MeansNothing plan.now) }
{
    match meaning_of(alloc, plan) {
        Ok(meaning) => match rows_meant(alloc, meaning, within) {
            Ok(rows) => Ok(rows),
            Err(_) => Err(Err(NoMemory)),
        },
        Err(fault) => Err(line_of(alloc, text, &Trouble::Plan(fault))),
    }
}

/// What faults cut off of what is meant, whose own moves of copies are left out.
fn rows_meant(
    alloc: Global,
    meaning: Meaning,
    within: Option<u64>,
) -> Result<Vec<OutageRow>, NoMemory>
    ensures { IfOk result (λ rows. AreFaultRowsOf meaning within rows.items) }
{
    let mut coarse = meaning;
    make_coarse(&mut coarse.orders)?;
    let rows = outage_rows(
        alloc,
        coarse.nodes.as_slice(),
        &coarse.topology,
        coarse.orders.as_slice(),
        within,
    )?;
    Ok(rows)
}

/// The sweep of a plan without its own events that this text says, if it has some; and what faults cut off. Or the line of what is wrong.
pub(crate) fn bare_of<T: Threads + Sync, E: Write>(
    rt: &T,
    alloc: Global,
    text: &str,
    plan: &Plan,
    asked: Asked<'_>,
    has_events: bool,
    is_shown: bool,
    errors: &mut E,
) -> Result<Bare, Line>
    requires { plan_in true text.now ≡ Ok plan.now }
    ensures bare { IfOk result (IsBareOf plan.now asked.entry) }
    ensures none { IfErr result (λ line. IsOk line → IsUnreportedBare plan.now asked.entry) }
    ensures hidden { is_shown ≡ false → E.contents errors.new ≡ E.contents errors.old }
{
    let outages = match fault_rows(alloc, text, plan, asked.within) {
        Ok(outages) => outages,
        Err(line) => return Err(line),
    };
    if !has_events {
        return Ok(Bare {
            swept: None,
            outages,
        });
    }
    let asked = asked_with(asked, true);
    match sweep_of(rt, alloc, text, plan, asked, is_shown, errors) {
        Ok(swept) => Ok(Bare {
            swept: Some(swept),
            outages,
        }),
        Err(line) => Err(line),
    }
}
