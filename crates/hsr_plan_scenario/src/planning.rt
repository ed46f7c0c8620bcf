//! The whole way from a plan's text to its scenario's, over a reader and two writers.
ghost use Rattle.std.specs.Prelude.{◌≡◌, ◌≢◌, ◌⊎◌, ◌&&◌, ◌==◌, ◌++◌, IfErr, IfOk, IfSome, IsOk, OnOk, codes, nat_le, not, true};
ghost use Rattle.std.specs.Io.KnownBytes.{Appends};
ghost use Rattle.hsr_duptable.specs.Table.{IsTableSize};
ghost use Rattle.hsr_plan_text.specs.Words.{is_title};
ghost use Rattle.hsr_plan_text.specs.declared.fault.What.TheVariants.{NoMemory as NoRoom};
ghost use Rattle.hsr_plan_scenario.specs.Ends.{Ends, IsDelivered, TellsFault, TellsInput, TellsWhy, code_of};
ghost use Rattle.hsr_plan_scenario.specs.Refusals.{IsKnown, IsUnplanned};
ghost use Rattle.hsr_plan_scenario.specs.Says.{SaysPlan};
ghost use Rattle.hsr_plan_scenario.specs.declared.planning.Ending.TheVariants.{Failed, Refused, Unwritten};

use crate::checking::{Trouble, scenario_of_plan};
use crate::input::input_line;
use hsr_frame::NoMemory;
use hsr_plan_fault::plan_fault_line;
use hsr_plan_text::{PlanFault, TEXT_LIMIT, What};
use hsr_text::{InputFault, put_decimal, read_text};
use std::alloc::Global;
use std::io::{self, Read, Write};

/// How it ended.
#[derive(Clone, Copy, PartialEq, Eq)]
pub enum Ending {
    /// What was asked for was written, or a scenario is right.
    Planned,
    /// A verdict was written, and it is a doubt.
    Doubted,
    /// There is none; a line on the second writer says why, and nothing else was written.
    Refused,
    /// The reader failed, or memory ran out; a line on the second writer says so, and nothing else was written.
    Failed,
    /// The first writer failed.
    Unwritten,
}

impl Ending {
    /// The status of the process.
    pub fn code(self) -> u8
        ensures { result ≡ code_of self }
    {
        match self {
            Ending::Planned => 0,
            Ending::Doubted => 2,
            Ending::Refused | Ending::Failed | Ending::Unwritten => 1,
        }
    }
}

/// Why there is nothing to write: a line that says it, or `NoMemory` where an allocation failed.
pub type Line = Result<Vec<u8>, NoMemory>;

/// The line of words alone; `NoMemory` if allocation fails.
pub fn words(alloc: Global, words: &str) -> Line {
    let mut line = Vec::new(alloc);
    line.extend_from_slice(words.as_bytes())?;
    Ok(line)
}

/// The line of a scenario that would have `octets` octets.
fn too_long(alloc: Global, octets: usize) -> Line {
    let mut line = words(alloc, "fault: plan 1:1 the scenario would have ")?;
    put_decimal(&mut line, octets as u64)?;
    line.extend_from_slice(
        b" octets, and 16777216 is the most: an earlier until_us, or fewer streams",
    )?;
    Ok(line)
}

/// The line of copies that are still on their way after `steps` steps. A table that is too small forgets what it passed, so that copies
/// go round again and again.
fn endless(alloc: Global, steps: usize) -> Line {
    let mut line = words(
        alloc,
        "fault: plan 1:1 copies are still on their way after ",
    )?;
    put_decimal(&mut line, steps as u64)?;
    line.extend_from_slice(b" steps: an earlier until_us, fewer streams, or larger tables")?;
    Ok(line)
}

/// The line of a fault of a plan.
fn line_of_fault(alloc: Global, text: &str, fault: &PlanFault) -> Line
    ensures { IsOk result → fault.now.what ≢ NoRoom }
{
    if matches!(fault.what, What::NoMemory) {
        return Err(NoMemory);
    }
    plan_fault_line(alloc, text, fault)
}

/// The line of a trouble; `NoMemory` where that is the trouble, or if allocation fails.
pub fn line_of(alloc: Global, text: &str, trouble: &Trouble) -> Line
    ensures { IsOk result → IsKnown trouble.now }
{
    match trouble {
        Trouble::Plan(fault) => line_of_fault(alloc, text, fault),
        Trouble::TooLong(octets) => too_long(alloc, *octets),
        Trouble::Endless(steps) => endless(alloc, *steps),
        Trouble::Differs => words(
            alloc,
            "fault: plan 1:1 copies can't be moved by hops or wires, or the scenario's text doesn't say what the plan means",
        ),
    }
}

/// The scenario that octets mean as a plan, or the line of what is wrong.
fn scenario_of<const C: usize>(alloc: Global, octets: &[u8]) -> Result<Vec<u8>, Line>
    requires { IsTableSize C }
    ensures says { IfOk result (λ text. SaysPlan C octets.now text.items) }
    ensures unplanned { IfErr result (λ line. IsOk line → IsUnplanned C octets.now) }
{
    let Ok(text) = str::from_utf8(octets) else {
        return Err(words(alloc, "fault: plan 1:1 no UTF-8"));
    };
    match scenario_of_plan::<C>(alloc, text) {
        Ok(scenario) => Ok(scenario),
        Err(trouble) => Err(line_of(alloc, text, &trouble)),
    }
}

/// An octet, or a question mark in place of a control character.
fn shown(octet: u8) -> u8
    ensures { (nat_le 32 result && not (result == 127)) ≡ true }
{
    // A fault has one line, and a terminal is to obey nothing that stands in a text.
    if octet < 32 || octet == 127 {
        b'?'
    } else {
        octet
    }
}

/// Why something is wrong, without control characters: a name in a plan or in a scenario may have them.
pub(crate) fn reason(alloc: Global, line: Line) -> Line
    ensures title { IfOk result (λ why. is_title why.items ≡ true) }
    ensures some { OnOk result (IsOk line) }
{
    let line = line?;
    let octets = line.as_slice();
    let mut why = Vec::new(alloc);
    // `write_fault` puts these words in front itself, so that no line lacks them.
    for octet in octets.strip_prefix(b"fault: ").unwrap_or(octets).iter() {
        why.push(shown(*octet))?;
    }
    Ok(why)
}

/// Writes a fault's line.
fn write_fault<E: Write>(errors: &mut E, why: &[u8]) -> io::Result<()>
    ensures { OnOk result (Appends (E.contents errors.old) (E.contents errors.new)
        (codes "fault: " ++ why.now ++ codes "\n")) }
{
    errors.write_all(b"fault: ")?;
    errors.write_all(why)?;
    errors.write_all(b"\n")?;
    errors.flush()
}

/// Writes a fault's line, after which nothing is written.
fn refuse<E: Write>(errors: &mut E, why: &[u8]) -> io::Result<Ending>
    requires { is_title why.now ≡ true }
    ensures is { IfOk result (λ ending. ending ≡ Refused) }
    ensures told { OnOk result (TellsFault (E.contents errors.old) (E.contents errors.new)) }
{
    write_fault(errors, why)?;
    Ok(Ending::Refused)
}

/// Writes the line of a text that isn't read, or of a failed allocation, after which nothing is written. The error of `errors`, where
/// it can't be written there.
pub fn fail<E: Write>(errors: &mut E, fault: InputFault) -> io::Result<Ending>
    ensures is { IfOk result (λ ending. ending ≡ Failed) }
    ensures told { OnOk result (TellsInput (E.contents errors.old) (E.contents errors.new)) }
{
    errors.write_all(input_line(fault))?;
    errors.flush()?;
    Ok(Ending::Failed)
}

/// Writes the line of what is wrong, or of a failed allocation. The error of `errors`, where it can't be written there.
pub fn complain<E: Write>(alloc: Global, errors: &mut E, line: Line) -> io::Result<Ending>
    ensures { IfOk result (TellsWhy (IsOk line) (E.contents errors.old) (E.contents errors.new)) }
{
    match reason(alloc, line) {
        Ok(why) => refuse(errors, why.as_slice()),
        Err(_) => fail(errors, InputFault::Memory),
    }
}

/// Writes a text, and flushes it.
fn deliver<W: Write>(writer: &mut W, text: &[u8]) -> Ending
    ensures { IsDelivered (W.contents writer.old) (W.contents writer.new) text.now result }
{
    // A flush that fails is a failed write: what stood in a buffer isn't there.
    if writer.write_all(text).is_err() || writer.flush().is_err() {
        return Ending::Unwritten;
    }
    Ending::Planned
}

/// A text to write, and how a run ends that writes it.
#[derive(Drop)]
pub struct Told {
    pub text: Vec<u8>,
    pub ending: Ending,
}

/// Writes a text. `Unwritten` where that fails, else what is said beside it.
pub fn give<W: Write>(writer: &mut W, told: &Told) -> Ending
    ensures { (result ≡ Unwritten) ⊎ ((result ≡ told.now.ending)
        × Appends (W.contents writer.old) (W.contents writer.new) told.now.text.items) }
{
    match deliver(writer, told.text.as_slice()) {
        Ending::Planned => told.ending,
        _ => Ending::Unwritten,
    }
}

/// Writes the scenario that octets mean as a plan, or the line of what is wrong.
fn answer<W: Write, E: Write, const C: usize>(
    alloc: Global,
    octets: &[u8],
    writer: &mut W,
    errors: &mut E,
) -> io::Result<Ending>
    requires { IsTableSize C }
    ensures { IfOk result (Ends C octets.now (W.contents writer.old) (W.contents writer.new)
        (E.contents errors.old) (E.contents errors.new)) }
{
    match scenario_of::<C>(alloc, octets) {
        Ok(text) => Ok(deliver(writer, text.as_slice())),
        Err(line) => complain(alloc, errors, line),
    }
}

/// Reads a plan, and writes the scenario that it means: a text that `hsr_scenario::read` reads as the topology, the capacity and the
/// orders that the definition of the plan's meaning lists, for a run with tables of `C` entries, with the plan's names and its title as
/// its first comment. Where there is none, nothing is written but one line on `errors`: `fault: plan <line>:<column>` and what is wrong,
/// where the octets are no UTF-8, no plan, or a plan without a scenario; `fault: read`, or `fault: memory`. The plan and the scenario have
/// at most 16 MiB. The error of `errors`, where that line can't be written there.
#[tactic(auto, using(crate::proofs::Whole::ends_whole))]
pub fn plan_run<R: Read, W: Write, E: Write, const C: usize>(
    alloc: Global,
    reader: &mut R,
    writer: &mut W,
    errors: &mut E,
) -> io::Result<Ending>
    requires { IsTableSize C }
    ensures { IfOk result (λ ending. IfSome (R.remaining reader.old) (λ octets.
        Ends C octets (W.contents writer.old) (W.contents writer.new) (E.contents errors.old) (E.contents errors.new) ending)) }
{
    match read_text(alloc, reader, TEXT_LIMIT) {
        Ok(octets) => answer::<W, E, C>(alloc, octets.as_slice(), writer, errors),
        Err(fault) => fail(errors, fault),
    }
}
