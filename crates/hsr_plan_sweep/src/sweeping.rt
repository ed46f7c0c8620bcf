//! The sweep of a plan, over a reader and two writers.
ghost use Rattle.std.specs.Prelude.{◌≡◌, false, IfErr, IfOk, IfSome, IsOk, Ok};
ghost use Rattle.hsr_plan_sweep.specs.Refusals.{IsKnown, IsUnplayedAmong, IsUnsweepable, IsUnswept, IsUnsweptIf, cases_in, ground, is_behind};
ghost use Rattle.hsr_plan_sweep.specs.Runs.{ArePlayed};
ghost use Rattle.hsr_plan_sweep.specs.Swept.{IsNamingOf, IsPlayedPlan, IsSwept, IsSweptPlan, SweepEnds, TellsPlays, ending_of};
ghost use Rattle.hsr_plan_sweep.specs.Variants.{plan_in};

use crate::asked::Asked;
use crate::cases::cases_of;
use crate::lines::{Words, lines};
use crate::playing::{Played, Swept, bare, play_all};
use crate::progress::clear;
use crate::running::Trouble;
use crate::variants::Ground;
use crate::verdict::is_in_doubt;
use hsr_frame::NoMemory;
use hsr_naming::{Names, Naming};
use hsr_plan_network::Node;
use hsr_plan_scenario::{
    Ending, Line, Told, Trouble as PlanTrouble, complain, fail, give, line_of, node_names,
    read_text, words,
};
use hsr_plan_schedule::{Meaning, meaning_of};
use hsr_plan_text::{Key, Plan, PlanFault, Refusal, Spot, TEXT_LIMIT, What, read};
use std::alloc::Global;
use std::io::{self, Read, Write};
use std::thread::Threads;

// ---- faults

/// The line of what is wrong; there is none if allocation failed.
fn line_of_trouble(alloc: Global, text: &str, trouble: &Trouble) -> Line
    ensures { IsOk result → IsKnown trouble.now }
{
    match trouble {
        Trouble::Plan(trouble) => line_of(alloc, text, trouble),
        Trouble::Memory => Err(NoMemory),
        Trouble::Run(_) => words(
            alloc,
            "fault: plan 1:1 a run of the plan doesn't end, or refuses a step: run its scenario",
        ),
    }
}

/// Whether a moment is behind the end, where there is one.
fn is_behind(until: Option<u64>, at: u64) -> bool
    ensures { result ≡ is_behind until at }
{
    match until {
        None => false,
        Some(until) => until < at,
    }
}

/// The fault of a sweep from a moment behind the end of the plan.
fn behind_the_end() -> PlanFault {
    PlanFault {
        spot: Spot::Top,
        what: What::Refused(Refusal::TooLate(Key::Until)),
    }
}

// ---- lines

/// What calls nodes by their names, and entries by their numbers, as the lines of a sweep do. `NoMemory` if allocation fails.
pub fn naming_of(alloc: Global, nodes: &[Node]) -> Result<Naming, NoMemory>
    ensures { IfOk result (IsNamingOf nodes.now) }
{
    let nodes = node_names(alloc, nodes)?;
    let entries = Vec::new(alloc);
    Ok(Naming::Names(Names { nodes, entries }))
}

/// How a sweep ends where something is in doubt, or nothing is.
fn ending_of(is_doubtful: bool) -> Ending
    ensures { result ≡ ending_of is_doubtful }
{
    if is_doubtful {
        Ending::Doubted
    } else {
        Ending::Planned
    }
}

/// The lines of what is counted, and whether something is in doubt.
fn told_of(
    alloc: Global,
    asked: Asked,
    meaning: &Meaning,
    plays: &[Played],
) -> Result<Told, NoMemory>
    ensures { IfOk result (λ told. TellsPlays asked meaning.now plays.now told.text.items told.ending) }
{
    let naming = naming_of(alloc, meaning.nodes.as_slice())?;
    let words = Words {
        nodes: meaning.nodes.as_slice(),
        links: meaning.topology.links(),
        naming: &naming,
        asked,
    };
    let text = lines(alloc, &words, plays)?;
    let ending = ending_of(is_in_doubt(asked, plays));
    Ok(Told { text, ending })
}

// ---- sweeps

/// What is counted of the cases that are asked for of a plan's text that means this.
fn plays_of<T: Threads + Sync, E: Write>(
    rt: &T,
    alloc: Global,
    text: &str,
    meaning: &Meaning,
    asked: Asked,
    is_shown: bool,
    errors: &mut E,
) -> Result<Vec<Played>, Trouble>
    ensures played { IfOk result (λ plays. ArePlayed (plan_in asked.without_events text.now) (ground asked.at meaning.now)
        (cases_in asked meaning.now) plays.items) }
    ensures none { IfErr result (λ trouble. IsKnown trouble → IsUnplayedAmong (plan_in asked.without_events text.now)
        (ground asked.at meaning.now) (cases_in asked meaning.now)) }
    ensures hidden { is_shown ≡ false → E.contents errors.new ≡ E.contents errors.old }
{
    let Ok(cases) = cases_of(alloc, asked, &meaning.topology) else {
        return Err(Trouble::Memory);
    };
    let ground = Ground {
        at: asked.at,
        nodes: meaning.nodes.as_slice(),
        links: meaning.topology.links(),
    };
    let swept = Swept {
        text,
        without_events: asked.without_events,
        ground,
    };
    play_all(rt, alloc, &swept, cases.as_slice(), is_shown, errors)
}

/// What is counted of the cases that are asked for of a plan's text that means this, or the line of what is wrong.
fn plays_or_line<T: Threads + Sync, E: Write>(
    rt: &T,
    alloc: Global,
    text: &str,
    meaning: &Meaning,
    asked: Asked,
    is_shown: bool,
    errors: &mut E,
) -> Result<Vec<Played>, Line>
    ensures played { IfOk result (λ plays. ArePlayed (plan_in asked.without_events text.now) (ground asked.at meaning.now)
        (cases_in asked meaning.now) plays.items) }
    ensures none { IfErr result (λ line. IsOk line → IsUnplayedAmong (plan_in asked.without_events text.now)
        (ground asked.at meaning.now) (cases_in asked meaning.now)) }
    ensures hidden { is_shown ≡ false → E.contents errors.new ≡ E.contents errors.old }
{
    let plays = plays_of(rt, alloc, text, meaning, asked, is_shown, errors);
    // Before a fault's line is written there.
    clear(is_shown, errors);
    match plays {
        Ok(plays) => Ok(plays),
        Err(trouble) => Err(line_of_trouble(alloc, text, &trouble)),
    }
}

/// What a sweep played: what the plan means, and what is counted of each case, of the undisturbed one last.
#[derive(Drop)]
pub struct SweptPlan {
    pub meaning: Meaning,
    pub plays: Vec<Played>,
}

/// What is counted of a plan's cases, from a moment that isn't behind its end; or the line of what is wrong.
fn play_in_time<T: Threads + Sync, E: Write>(
    rt: &T,
    alloc: Global,
    text: &str,
    plan: &Plan,
    asked: Asked,
    is_shown: bool,
    errors: &mut E,
) -> Result<SweptPlan, Line>
    requires { plan_in asked.without_events text.now ≡ Ok plan.now }
    ensures played { IfOk result (λ p. IsPlayedPlan plan.now asked p.meaning p.plays.items) }
    ensures none { IfErr result (λ line. IsOk line → IsUnswept plan.now asked) }
    ensures hidden { is_shown ≡ false → E.contents errors.new ≡ E.contents errors.old }
{
    match meaning_of(alloc, plan) {
        Ok(meaning) => match plays_or_line(rt, alloc, text, &meaning, asked, is_shown, errors) {
            Ok(plays) => Ok(SweptPlan { meaning, plays }),
            Err(line) => Err(line),
        },
        Err(fault) => Err(line_of(alloc, text, &PlanTrouble::Plan(fault))),
    }
}

/// What is counted of each case that is asked for of a plan, which this text says; or the line of what is wrong. Runs are played by as many
/// threads as there are processors. Where that is asked for, `errors` is told how far it is; nothing else is written there.
pub fn play_plan<T: Threads + Sync, E: Write>(
    rt: &T,
    alloc: Global,
    text: &str,
    plan: &Plan,
    asked: Asked,
    is_shown: bool,
    errors: &mut E,
) -> Result<SweptPlan, Line>
    requires { plan_in asked.without_events text.now ≡ Ok plan.now }
    ensures played { IfOk result (λ p. IsPlayedPlan plan.now asked p.meaning p.plays.items) }
    ensures none { IfErr result (λ line. IsOk line → IsUnswept plan.now asked) }
    ensures hidden { is_shown ≡ false → E.contents errors.new ≡ E.contents errors.old }
{
    if is_behind(plan.outline.until, asked.at) {
        let trouble = PlanTrouble::Plan(behind_the_end());
        return Err(line_of(alloc, text, &trouble));
    }
    play_in_time(rt, alloc, text, plan, asked, is_shown, errors)
}

/// The lines of a plan's sweep, or the line of what is wrong.
fn swept_plan<T: Threads + Sync, E: Write>(
    rt: &T,
    alloc: Global,
    text: &str,
    plan: &Plan,
    asked: Asked,
    is_shown: bool,
    errors: &mut E,
) -> Result<Told, Line>
    requires { plan_in asked.without_events text.now ≡ Ok plan.now }
    ensures told { IfOk result (λ told. IsSweptPlan plan.now asked told.text.items told.ending) }
    ensures none { IfErr result (λ line. IsOk line → IsUnswept plan.now asked) }
    ensures hidden { is_shown ≡ false → E.contents errors.new ≡ E.contents errors.old }
{
    match play_plan(rt, alloc, text, plan, asked, is_shown, errors) {
        Ok(played) => match told_of(alloc, asked, &played.meaning, played.plays.as_slice()) {
            Ok(told) => Ok(told),
            Err(_) => Err(Err(NoMemory)),
        },
        Err(line) => Err(line),
    }
}

/// What a text says as a plan, without its own events where they are left out; or the line of what is wrong.
pub fn read_plan(alloc: Global, text: &str, asked: Asked) -> Result<Plan, Line>
    ensures plan { IfOk result (λ plan. plan_in asked.without_events text.now ≡ Ok plan) }
    ensures none { IfErr result (λ line. IsOk line → IsUnsweptIf (plan_in asked.without_events text.now) asked) }
{
    match read(alloc, text) {
        Ok(mut plan) => {
            bare(alloc, &mut plan, asked.without_events);
            Ok(plan)
        }
        Err(fault) => Err(line_of(alloc, text, &PlanTrouble::Plan(fault))),
    }
}

/// The lines of the sweep of what a text says as a plan, or the line of what is wrong.
fn swept_text<T: Threads + Sync, E: Write>(
    rt: &T,
    alloc: Global,
    text: &str,
    asked: Asked,
    is_shown: bool,
    errors: &mut E,
) -> Result<Told, Line>
    ensures told { IfOk result (λ told. IsSwept text.now asked told.text.items told.ending) }
    ensures none { IfErr result (λ line. IsOk line → IsUnsweepable text.now asked) }
    ensures hidden { is_shown ≡ false → E.contents errors.new ≡ E.contents errors.old }
{
    match read_plan(alloc, text, asked) {
        Ok(plan) => swept_plan(rt, alloc, text, &plan, asked, is_shown, errors),
        Err(line) => Err(line),
    }
}

/// The lines of the sweep of what octets say as a plan, or the line of what is wrong.
fn swept<T: Threads + Sync, E: Write>(
    rt: &T,
    alloc: Global,
    octets: &[u8],
    asked: Asked,
    is_shown: bool,
    errors: &mut E,
) -> Result<Told, Line>
    ensures told { IfOk result (λ told. IsSwept octets.now asked told.text.items told.ending) }
    ensures none { IfErr result (λ line. IsOk line → IsUnsweepable octets.now asked) }
    ensures hidden { is_shown ≡ false → E.contents errors.new ≡ E.contents errors.old }
{
    let Ok(text) = str::from_utf8(octets) else {
        return Err(words(alloc, "fault: plan 1:1 no UTF-8"));
    };
    swept_text(rt, alloc, text, asked, is_shown, errors)
}

/// Writes the lines of a sweep, or the line of what is wrong.
#[tactic(auto, using(crate::proofs::Whole::given_if_hidden, crate::proofs::Whole::why_if_hidden))]
fn answer<T: Threads + Sync, W: Write, E: Write>(
    rt: &T,
    alloc: Global,
    octets: &[u8],
    asked: Asked,
    is_shown: bool,
    writer: &mut W,
    errors: &mut E,
) -> io::Result<Ending>
    ensures { IfOk result (SweepEnds octets.now asked is_shown (W.contents writer.old)
        (W.contents writer.new) (E.contents errors.old) (E.contents errors.new)) }
{
    match swept(rt, alloc, octets, asked, is_shown, errors) {
        Ok(told) => Ok(give(writer, &told)),
        Err(line) => complain(alloc, errors, line),
    }
}

/// Reads a plan, and writes a line for each link and each node that is off from a moment on, in microseconds, for each two of them where
/// that is asked for, and then of the undisturbed run: how many sends each run had; how many of these are complete, missed, and taken up
/// twice; how many entries its tables needed, and what was spent of them; how long a send took at most, and the most load of a channel;
/// and what the audit of networks found, in the words of a report. A send is due at those whom its stream is for and who are on when it
/// is sent. Runs are played by as many threads as there are processors; the lines are those of one. Then come the links and nodes which
/// are single points of failure, and what is enough for all runs. A part has each N-th line from the K-th on, and none of these last ones.
/// `Doubted` comes where a send isn't complete though one link or node is off at most, or where a run passes a limit. Where nothing can
/// be counted of one of these, nothing is written but one line on `errors`, as by `plan_run`. Where that is asked for, `errors` is told
/// how far it is.
pub fn sweep_run<T: Threads + Sync, R: Read, W: Write, E: Write>(
    rt: &T,
    alloc: Global,
    reader: &mut R,
    writer: &mut W,
    errors: &mut E,
    asked: Asked,
    is_shown: bool,
) -> io::Result<Ending>
    ensures { IfOk result (λ ending. IfSome (R.remaining reader.old) (λ octets.
        SweepEnds octets asked is_shown (W.contents writer.old) (W.contents writer.new)
        (E.contents errors.old) (E.contents errors.new) ending)) }
{
    match read_text(alloc, reader, TEXT_LIMIT) {
        Ok(octets) => answer(
            rt,
            alloc,
            octets.as_slice(),
            asked,
            is_shown,
            writer,
            errors,
        ),
        Err(fault) => fail(errors, fault),
    }
}
