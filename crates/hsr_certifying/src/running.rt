//! The verdict on the scenario that a text means, and its line.
ghost use Rattle.std.specs.Prelude.{◌≡◌, IfErr, IfOk, IfSome, OnOk};
ghost use Rattle.hsr_certify_text.specs.Words.{verdict_line};
ghost use Rattle.hsr_commands.specs.Reading.{IsNoScenario, scenario_of};
ghost use Rattle.hsr_commands.specs.declared.fault.Fault.TheVariants.{Memory};
ghost use Rattle.hsr_certifying.specs.Certifying.{CertifyEnds, IsDelivered, IsFoundOf, IsToldOf, status_of, steps_of};

use crate::question::Question;
use hsr_certify_text::{Verdict, found, make_coarse, put_verdict};
use hsr_commands::{Fault, Status, read_text, scenario_of};
use hsr_frame::NoMemory;
use hsr_scenario::{Order, TEXT_LIMIT};
use std::alloc::Global;
use std::io::{Read, Write};

/// A verdict, and its line.
#[derive(Drop)]
struct Told {
    verdict: Verdict,
    line: Vec<u8>,
}

/// Leaves out the steps that move copies, and adds a drain, if that is asked for.
fn choose_steps(steps: &mut Vec<Order>, is_coarse: bool) -> Result<(), NoMemory>
    ensures { OnOk result (steps.new.items ≡ steps_of is_coarse steps.old.items) }
{
    if is_coarse {
        return make_coarse(steps);
    }
    Ok(())
}

/// The verdict on the scenario that octets mean.
fn verdict_on(alloc: Global, octets: &[u8], question: Question) -> Result<Verdict, Fault>
    ensures ok { IfOk result (IsFoundOf question (scenario_of octets.now)) }
    ensures err { IfErr result (IsNoScenario (scenario_of octets.now)) }
{
    let scenario = scenario_of(alloc, octets)?;
    let mut steps = scenario.steps;
    choose_steps(&mut steps, question.is_coarse)?;
    let verdict = found(
        alloc,
        &scenario.topology,
        scenario.capacity,
        question.table,
        steps.as_slice(),
        question.within,
    )?;
    Ok(verdict)
}

/// The line of a verdict.
fn line_of(alloc: Global, verdict: Verdict) -> Result<Vec<u8>, Fault>
    ensures ok { IfOk result (λ line. line.items ≡ verdict_line verdict) }
    ensures err { IfErr result (λ f. f ≡ Memory) }
{
    let mut line = Vec::new(alloc);
    put_verdict(&mut line, verdict)?;
    Ok(line)
}

/// The verdict on the scenario that octets mean, and its line.
fn told_of(alloc: Global, octets: &[u8], question: Question) -> Result<Told, Fault>
    ensures ok { IfOk result (IsToldOf question (scenario_of octets.now)) }
    ensures err { IfErr result (IsNoScenario (scenario_of octets.now)) }
{
    let verdict = verdict_on(alloc, octets, question)?;
    let line = line_of(alloc, verdict)?;
    Ok(Told { verdict, line })
}

/// How a run ends of which this is found.
fn status_of(verdict: Verdict) -> Status
    ensures { result ≡ status_of verdict }
{
    match verdict {
        Verdict::Certified(_) => Status::Certified,
        Verdict::Doubted(_) => Status::Doubt,
    }
}

/// Writes the line of a verdict. It doesn't flush.
fn deliver<W: Write>(writer: &mut W, line: &[u8], verdict: Verdict) -> Status
    ensures { IsDelivered (W.contents writer.old) (W.contents writer.new) line.now verdict result }
{
    // What was written is flushed in one place, `bench`.
    match writer.write_all(line) {
        Ok(()) => status_of(verdict),
        Err(_) => Status::Fault(Fault::Write),
    }
}

/// Writes what is found of the scenario that octets mean.
#[tactic(auto, using(crate::proofs::Ending::delivered, crate::proofs::Ending::stopped))]
fn tell<W: Write>(alloc: Global, octets: &[u8], writer: &mut W, question: Question) -> Status
    ensures { CertifyEnds question (scenario_of octets.now) (W.contents writer.old)
        (W.contents writer.new) result }
{
    match told_of(alloc, octets, question) {
        Ok(told) => deliver(writer, told.line.as_slice(), told.verdict),
        Err(fault) => Status::Fault(fault),
    }
}

/// Says of the scenario that a text means whether it certifies delivery, whatever the order in which its copies move, and writes that as a
/// line: `certified <sends> in any order`, or `doubt` with the first doubt. Nothing is played. Where it is certified, what
/// `HoldsInAnyOrder` says holds of the setup: in each order no step is refused, each order comes to an end, and then each node that a send
/// is due at took it up just once, and nothing else went up (IEC 62439-3 clause 5). The status tells which of both it is.
///
/// The scenario has at most 16 MiB. The line is formed whole before it is written, so that after other faults nothing is, but for
/// `Fault::Write`. `Fault::Scenario` where the text is no scenario, as for `scenario_run`; `Fault::Read` where the reader fails or takes
/// over 2^40 reads, `Fault::Memory` if allocation fails.
pub fn certify_run<R: Read, W: Write>(
    alloc: Global,
    reader: &mut R,
    writer: &mut W,
    question: Question,
) -> Status
    ensures { IfSome (R.remaining reader.old) (λ octets.
        CertifyEnds question (scenario_of octets) (W.contents writer.old) (W.contents writer.new) result) }
{
    match read_text(alloc, reader, TEXT_LIMIT) {
        Ok(octets) => tell(alloc, octets.as_slice(), writer, question),
        Err(fault) => Status::Fault(fault),
    }
}
