//! The page of a plan, over a reader and two writers.
ghost use Rattle.std.specs.Prelude.{◌≡◌, Ok, false, true, IfErr, IfOk, IfSome, IsOk};
ghost use Rattle.hsr_plan_sweep.specs.Variants.{bared, plan_in};
ghost use Rattle.hsr_plan_report.specs.Gathered.{IsBareOf, IsSweepOf, IsUnreportedBare, asked_with};
ghost use Rattle.hsr_plan_report.specs.Own.{IsOwnOf};
ghost use Rattle.hsr_plan_sweep.specs.Swept.{ending_of};
ghost use Rattle.hsr_plan_report.specs.Report.{IsPageOf, IsReport, IsReportOf, IsUnreportable, IsUnreported, ReportEnds, is_doubtful};

use crate::asked::Asked;
use crate::gathered::{Bare, Swept, asked_with, bare_of, sweep_of};
use crate::own::{Own, own_of};
use crate::paper::{Paper, ending_of, page_of};
use hsr_frame::NoMemory;
use hsr_plan_scenario::{Ending, Line, Told, complain, fail, give, read_text, words};
use hsr_plan_sweep::read_plan;
use hsr_plan_text::{Plan, TEXT_LIMIT};
use std::alloc::Global;
use std::io::{self, Read, Write};
use std::marker::Sync;
use std::thread::Threads;

/// The page of what was gathered, and how a run ends that writes it.
fn told_of(alloc: Global, paper: Paper<'_>) -> Result<Told, NoMemory>
    ensures page { IfOk result (λ told. IsPageOf paper.entry.text.now paper.entry.plan.now paper.entry.asked paper.entry.own.now paper.entry.swept.now paper.entry.bare.now told.text.items) }
    ensures ends { IfOk result (λ told. told.ending ≡ ending_of (is_doubtful paper.entry.asked paper.entry.own.now paper.entry.swept.now paper.entry.bare.now)) }
{
    let text = page_of(alloc, paper)?;
    Ok(Told {
        text,
        ending: ending_of(paper),
    })
}

/// The sweep of a plan without its own events that this text says, if the plan has some, and what faults cut off; or the line of what is
/// wrong.
fn without_events<T: Threads + Sync, E: Write>(
    rt: &T,
    alloc: Global,
    text: &str,
    plan: &Plan,
    asked: Asked<'_>,
    is_shown: bool,
    errors: &mut E,
) -> Result<Bare, Line>
    requires { plan_in false text.now ≡ Ok plan.now }
    ensures bare { IfOk result (IsBareOf (bared true plan.now) asked.entry) }
    ensures none { IfErr result (λ line. IsOk line → IsUnreportedBare (bared true plan.now) asked.entry) }
    ensures hidden { is_shown ≡ false → E.contents errors.new ≡ E.contents errors.old }
{
    let has_events = !plan.events.is_empty();
    // The text was read before, so only memory can fail here.
    match read_plan(alloc, text, asked_with(asked, true)) {
        Ok(bare) => bare_of(rt, alloc, text, &bare, asked, has_events, is_shown, errors),
        Err(_) => Err(Err(NoMemory)),
    }
}

/// The page of a plan that this text says, its own run, and its sweep; or the line of what is wrong.
fn told_with<T: Threads + Sync, E: Write>(
    rt: &T,
    alloc: Global,
    text: &str,
    plan: &Plan,
    own: &Own,
    swept: &Swept,
    asked: Asked<'_>,
    is_shown: bool,
    errors: &mut E,
) -> Result<Told, Line>
    requires plan { plan_in false text.now ≡ Ok plan.now }
    requires own { IsOwnOf text.now plan.now asked.within own.now }
    requires swept { IsSweepOf plan.now (asked_with asked false) swept.now }
    ensures told { IfOk result (λ told. IsReportOf text.now plan.now asked.entry told.text.items told.ending) }
    ensures none { IfErr result (λ line. IsOk line → IsUnreportedBare (bared true plan.now) asked.entry) }
    ensures hidden { is_shown ≡ false → E.contents errors.new ≡ E.contents errors.old }
{
    match without_events(rt, alloc, text, plan, asked, is_shown, errors) {
        Ok(bare) => {
            let paper = Paper {
                text,
                plan,
                asked,
                own,
                swept,
                bare: &bare,
            };
            match told_of(alloc, paper) {
                Ok(told) => Ok(told),
                Err(_) => Err(Err(NoMemory)),
            }
        }
        Err(line) => Err(line),
    }
}

/// The page of a plan that this text says, with what its own run comes to; or the line of what is wrong.
fn told_by<T: Threads + Sync, E: Write>(
    rt: &T,
    alloc: Global,
    text: &str,
    plan: &Plan,
    own: &Own,
    asked: Asked<'_>,
    is_shown: bool,
    errors: &mut E,
) -> Result<Told, Line>
    requires plan { plan_in false text.now ≡ Ok plan.now }
    requires own { IsOwnOf text.now plan.now asked.within own.now }
    ensures told { IfOk result (λ told. IsReportOf text.now plan.now asked.entry told.text.items told.ending) }
    ensures none { IfErr result (λ line. IsOk line → IsUnreported plan.now asked.entry) }
    ensures hidden { is_shown ≡ false → E.contents errors.new ≡ E.contents errors.old }
{
    let swept = asked_with(asked, false);
    match sweep_of(rt, alloc, text, plan, swept, is_shown, errors) {
        Ok(swept) => told_with(rt, alloc, text, plan, own, &swept, asked, is_shown, errors),
        Err(line) => Err(line),
    }
}

/// The page of a plan that this text says, or the line of what is wrong.
fn told_of_plan<T: Threads + Sync, E: Write>(
    rt: &T,
    alloc: Global,
    text: &str,
    plan: &Plan,
    asked: Asked<'_>,
    is_shown: bool,
    errors: &mut E,
) -> Result<Told, Line>
    requires { plan_in false text.now ≡ Ok plan.now }
    ensures told { IfOk result (λ told. IsReportOf text.now plan.now asked.entry told.text.items told.ending) }
    ensures none { IfErr result (λ line. IsOk line → IsUnreported plan.now asked.entry) }
    ensures hidden { is_shown ≡ false → E.contents errors.new ≡ E.contents errors.old }
{
    match own_of(alloc, text, plan, asked.within) {
        Ok(own) => told_by(rt, alloc, text, plan, &own, asked, is_shown, errors),
        Err(line) => Err(line),
    }
}

/// The page of what a text says as a plan, or the line of what is wrong.
fn told_of_text<T: Threads + Sync, E: Write>(
    rt: &T,
    alloc: Global,
    text: &str,
    asked: Asked<'_>,
    is_shown: bool,
    errors: &mut E,
) -> Result<Told, Line>
    ensures told { IfOk result (λ told. IsReport text.now asked.entry told.text.items told.ending) }
    ensures none { IfErr result (λ line. IsOk line → IsUnreportable text.now asked.entry) }
    ensures hidden { is_shown ≡ false → E.contents errors.new ≡ E.contents errors.old }
{
    match read_plan(alloc, text, asked_with(asked, false)) {
        Ok(plan) => told_of_plan(rt, alloc, text, &plan, asked, is_shown, errors),
        Err(line) => Err(line),
    }
}

/// The page of what octets say as a plan, or the line of what is wrong.
fn told_in<T: Threads + Sync, E: Write>(
    rt: &T,
    alloc: Global,
    octets: &[u8],
    asked: Asked<'_>,
    is_shown: bool,
    errors: &mut E,
) -> Result<Told, Line>
    ensures told { IfOk result (λ told. IsReport octets.now asked.entry told.text.items told.ending) }
    ensures none { IfErr result (λ line. IsOk line → IsUnreportable octets.now asked.entry) }
    ensures hidden { is_shown ≡ false → E.contents errors.new ≡ E.contents errors.old }
{
    let Ok(text) = str::from_utf8(octets) else {
        return Err(words(alloc, "fault: plan 1:1 no UTF-8"));
    };
    told_of_text(rt, alloc, text, asked, is_shown, errors)
}

/// Writes the page of what octets say as a plan, or the line of what is wrong.
#[tactic(auto, using(crate::proofs::Whole::given_if_hidden, crate::proofs::Whole::why_if_hidden))]
fn answer<T: Threads + Sync, W: Write, E: Write>(
    rt: &T,
    alloc: Global,
    octets: &[u8],
    asked: Asked<'_>,
    is_shown: bool,
    writer: &mut W,
    errors: &mut E,
) -> io::Result<Ending>
    ensures { IfOk result (ReportEnds octets.now asked.entry is_shown (W.contents writer.old)
        (W.contents writer.new) (E.contents errors.old) (E.contents errors.new)) }
{
    match told_in(rt, alloc, octets, asked, is_shown, errors) {
        Ok(told) => Ok(give(writer, &told)),
        Err(line) => complain(alloc, errors, line),
    }
}

/// Reads a plan, and writes its page for an acceptance: one file of HTML that stands alone and prints on A4. It has the verdict in any order,
/// the network as it is wired, streams with what came of them, the load of each direction of a link and the latency to each receiver of
/// the plan's run with tables of 512 entries; what each link and each node that is off cuts off, and what comes of each such run, with the
/// plan's own events and without; the entries needed and the budget, and the sum of the plan's text (SHA-256). Its numbers are those of
/// `hsr_plan run`, `sweep` and `certify`. `Doubted` comes where the verdict in any order, the audit of the run, or the sweep without the
/// plan's events is a doubt. Where there is no page, nothing is written but one line on `errors`, as by `plan_run`. Where that is asked
/// for, `errors` is told how far the sweeps are. The error of `errors`, where a line can't be written there.
pub fn report_run<T: Threads + Sync, R: Read, W: Write, E: Write>(
    rt: &T,
    alloc: Global,
    reader: &mut R,
    writer: &mut W,
    errors: &mut E,
    asked: Asked<'_>,
    is_shown: bool,
) -> io::Result<Ending>
    ensures { IfOk result (λ ending. IfSome (R.remaining reader.old) (λ octets.
        ReportEnds octets asked.entry is_shown (W.contents writer.old) (W.contents writer.new)
        (E.contents errors.old) (E.contents errors.new) ending)) }
{
    match read_text(alloc, reader, TEXT_LIMIT) {
        Ok(octets) => answer(
            rt,
            alloc,
            octets.as_slice(),
            asked,
            is_shown,
            writer,
            errors,
        ),
        Err(fault) => fail(errors, fault),
    }
}
