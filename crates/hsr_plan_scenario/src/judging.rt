//! Whether a text is a scenario that can be played to its end, over a reader and a writer.
ghost use Rattle.std.specs.Prelude.{◌≡◌, ◌++◌, IfErr, IfOk, IfSome, Ok, OnOk, codes, true};
ghost use Rattle.std.specs.Fmt.{decimal};
ghost use Rattle.std.specs.Io.KnownBytes.{Appends};
ghost use Rattle.hsr_finished_run.specs.Disagree.{disagree_code};
ghost use Rattle.hsr_scenario.specs.Meaning.{meaning, scenario_view};
ghost use Rattle.hsr_plan_text.specs.Words.{is_title};
ghost use Rattle.hsr_plan_scenario.specs.Ends.{Checks, TellsOpen, TellsWhyOpen};
ghost use Rattle.hsr_plan_scenario.specs.Refusals.{IsWrong};
ghost use Rattle.hsr_plan_scenario.specs.Says.{IsPlayed, IsScenario};
ghost use Rattle.hsr_plan_scenario.specs.declared.planning.Ending.TheVariants.{Refused};

use crate::planning::{Ending, Line, complain, fail, reason, words};
use hsr_finished_run::Disagree;
use hsr_frame::NoMemory;
use hsr_ring::{Unfinished, finished};
use hsr_scenario::{Scenario, TEXT_LIMIT, What, read};
use hsr_scenario_fault::{refused_step_line, scenario_fault_line, words_of_check, words_of_step};
use hsr_text::{InputFault, put_decimal, read_text};
use std::alloc::Global;
use std::io::{self, Read, Write};

/// How many entries the tables have with which a scenario is tried.
const TABLE: usize = 512;

/// Why octets are no scenario that can be played to its end.
#[derive(Drop)]
pub enum Wrong {
    /// They are none, or an order is refused: the line that says it, or `NoMemory` where an allocation failed.
    Told(Line),
    /// The run that the orders lead to can't be closed.
    Open(Disagree),
}

/// Plays a scenario to its end, in tables of 512 entries.
#[tactic(auto, using(crate::proofs::Played::unplayed_so))]
fn played(alloc: Global, text: &str, scenario: Scenario) -> Result<(), Wrong>
    requires { meaning text.now ≡ Ok (scenario_view scenario) }
    ensures right { OnOk result (IsPlayed (scenario_view scenario)) }
    ensures wrong { IfErr result (IsWrong text.now) }
{
    // A text without nodes is read as a scenario too, an empty one for example: it is told what it lacks.
    if scenario.topology.places().is_empty() {
        return Err(Wrong::Told(words(
            alloc,
            "fault: scenario 1:1 missing word node: a list of nodes, each with name and role",
        )));
    }
    let (topology, capacity) = (scenario.topology, scenario.capacity);
    match finished::<TABLE>(alloc, topology, capacity, scenario.steps.as_slice()) {
        Ok(_closed) => Ok(()),
        Err(Unfinished::Step(index, fault)) => {
            let why = words_of_step(&fault);
            Err(Wrong::Told(refused_step_line(alloc, text, index, why)))
        }
        Err(Unfinished::Check(cause)) => Err(Wrong::Open(cause)),
        // A failed allocation is no fault of the text, so it has no line and column there.
        Err(Unfinished::Memory) => Err(Wrong::Told(Err(NoMemory))),
    }
}

/// Judges octets: nothing where they are a scenario that can be played to its end, or what is wrong.
#[tactic(auto, using(crate::proofs::Played::played_so, crate::proofs::Played::unread_so, crate::proofs::Played::wrong_so))]
fn judged(alloc: Global, octets: &[u8]) -> Result<(), Wrong>
    ensures right { OnOk result (IsScenario octets.now) }
    ensures wrong { IfErr result (IsWrong octets.now) }
{
    let Ok(text) = str::from_utf8(octets) else {
        return Err(Wrong::Told(words(alloc, "fault: scenario 1:1 no UTF-8")));
    };
    match read(alloc, text) {
        Ok(scenario) => played(alloc, text, scenario),
        Err(fault) => {
            if matches!(fault.what, What::NoMemory) {
                Err(Wrong::Told(Err(NoMemory)))
            } else {
                Err(Wrong::Told(scenario_fault_line(alloc, text, &fault)))
            }
        }
    }
}

/// The number of a cause, in decimal digits.
fn digits_of(alloc: Global, cause: Disagree) -> Line
    ensures { IfOk result (λ digits. digits.items ≡ decimal (disagree_code cause)) }
{
    let mut digits = Vec::new(alloc);
    put_decimal(&mut digits, u64::from(cause.code()))?;
    Ok(digits)
}

/// Writes the lines of a run that can't be closed, with the number of the cause, in decimal digits, and what it means.
fn write_open<E: Write>(errors: &mut E, number: &[u8], why: &[u8]) -> io::Result<()>
    ensures { OnOk result (Appends (E.contents errors.old) (E.contents errors.new)
        (codes "fault: check " ++ number.now ++ codes "\nexplain: " ++ why.now ++ codes "\n")) }
{
    errors.write_all(b"fault: check ")?;
    errors.write_all(number)?;
    errors.write_all(b"\nexplain: ")?;
    errors.write_all(why)?;
    errors.write_all(b"\n")?;
    // Flushed here, since nothing is written behind it.
    errors.flush()
}

/// Writes the lines of a run that can't be closed, after which nothing is written.
fn explain<E: Write>(
    errors: &mut E,
    cause: Disagree,
    number: &[u8],
    why: &[u8],
) -> io::Result<Ending>
    requires digits { number.now ≡ decimal (disagree_code cause) }
    requires title { is_title why.now ≡ true }
    ensures is { IfOk result (λ ending. ending ≡ Refused) }
    ensures told { OnOk result (TellsOpen cause (E.contents errors.old) (E.contents errors.new)) }
{
    write_open(errors, number, why)?;
    Ok(Ending::Refused)
}

/// Writes why a run can't be closed, and what would do; or the line of a failed allocation.
fn complain_open<E: Write>(alloc: Global, errors: &mut E, cause: Disagree) -> io::Result<Ending>
    ensures { IfOk result (TellsWhyOpen cause (E.contents errors.old) (E.contents errors.new)) }
{
    let Ok(number) = digits_of(alloc, cause) else {
        return fail(errors, InputFault::Memory);
    };
    match reason(alloc, words(alloc, words_of_check(cause))) {
        Ok(why) => explain(errors, cause, number.as_slice(), why.as_slice()),
        Err(_) => fail(errors, InputFault::Memory),
    }
}

/// Judges octets; where they are no scenario that can be played to its end, what is wrong is written.
fn answer<E: Write>(alloc: Global, octets: &[u8], errors: &mut E) -> io::Result<Ending>
    ensures { IfOk result (Checks octets.now (E.contents errors.old) (E.contents errors.new)) }
{
    match judged(alloc, octets) {
        Ok(()) => Ok(Ending::Planned),
        Err(Wrong::Told(line)) => complain(alloc, errors, line),
        Err(Wrong::Open(cause)) => complain_open(alloc, errors, cause),
    }
}

/// Reads a scenario, and tells whether it can be played to its end: a text that `hsr_scenario::read` reads, with nodes, whose orders lead to
/// a finished run with tables of 512 entries. Where it can't, `errors` says why. `fault: scenario <line>:<column>` and what would be right
/// stands there of a text that is none, of one without nodes, and of an order that is refused. `fault: check <n>`, and a line that explains
/// it, stands there where all orders are obeyed, and the run that they lead to can't be closed: something is still on its way, or was
/// injected. Otherwise the scenario is right, but for `fault: read` and `fault: memory`. It has at most 16 MiB. The error of `errors`, where
/// a line can't be written there.
#[tactic(auto, using(crate::proofs::Whole::scenario_whole))]
pub fn check_run<R: Read, E: Write>(
    alloc: Global,
    reader: &mut R,
    errors: &mut E,
) -> io::Result<Ending>
    ensures { IfOk result (λ ending. IfSome (R.remaining reader.old) (λ octets.
        Checks octets (E.contents errors.old) (E.contents errors.new) ending)) }
{
    match read_text(alloc, reader, TEXT_LIMIT) {
        Ok(octets) => answer(alloc, octets.as_slice(), errors),
        Err(fault) => fail(errors, fault),
    }
}
