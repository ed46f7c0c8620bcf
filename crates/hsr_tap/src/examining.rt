//! The report on the health of the ring that a capture shows, written; or a fault's line.
ghost use Rattle.std.specs.Prelude.{◌≡◌, ◌==◌, ◌++◌, ℕ, List, Some, None, Ok, Err, IfErr, IfOk, IfSome, OnOk, length, option_map};
ghost use Rattle.std.specs.List.{flat_map};
ghost use Rattle.hsr_capture_reader.specs.Capture.{capture_of};
ghost use Rattle.hsr_health.specs.Whole.{IsBounded};
ghost use Rattle.hsr_tap.specs.Examining.{Examines, IsExamined, IsFound, IsGatheredOf, IsSeen, IsUnexpected, IsUnseen, IsUntellable, Shows, ShowsOf, TellsEnded, expected_by, interfaces_of, missing_of, numbers_of};
ghost use Rattle.hsr_health_text.specs.Report.{report_text};
ghost use Rattle.hsr_tap.specs.declared.examining.Ended.TheVariants.{NoInterface};

use crate::fault::Fault;
use crate::reporting::{Report, report_to, status_of};
use crate::running::{octets_from, tell_fault};
use hsr_capture_reader::Capture;
use hsr_expected::expected_of;
use hsr_frame::{Mac, NoMemory};
use hsr_health::{Asked, Gathered, Health, gathered_of, health_of};
use hsr_health_text::report;
use hsr_taps::{Choice, PointAsked};
use std::alloc::Global;
use std::io::{self, Read, Write};

/// The status of a process whose arguments ask for what isn't there.
const REFUSED: u8 = 3;

/// How a capture is looked at, and what is told of it.
#[derive(Drop)]
pub struct Looking<'a> {
    /// What is asked of it.
    pub asked: Asked<'a>,
    /// Whether all numbers are told.
    pub is_full: bool,
    /// How many octets of each packet are a frame check sequence, where the capture says nothing of it.
    pub fcs: u8,
}

/// What is seen of a capture: a report, or that an interface is named which isn't there.
#[derive(Drop)]
enum Seen {
    Told(Report),
    NoInterface(usize),
}

/// How it ended: a report was written, and this is whether the ring is healthy; or nothing was, as an interface is named that isn't there.
#[derive(Clone, Copy)]
pub(crate) enum Ended {
    Told(bool),
    NoInterface(usize),
}

/// Puts the interfaces of a point last.
fn put_interfaces(numbers: &mut Vec<usize>, point: &PointAsked<'_>) -> Result<(), NoMemory>
    ensures { OnOk result (numbers.new.items ≡ numbers.old.items ++ interfaces_of point.now) }
{
    numbers.extend_from_slice(point.interfaces.as_slice())?;
    Ok(())
}

/// Puts the interfaces of points last.
#[tactic(auto, using(hsr_frame::proofs::OneMore::grown))]
fn put_all_interfaces(numbers: &mut Vec<usize>, points: &[PointAsked<'_>]) -> Result<(), NoMemory>
    ensures { OnOk result (numbers.new.items ≡ numbers.old.items ++ flat_map interfaces_of points.now) }
{
    for point in points {
        put_interfaces(numbers, point)?;
    }
    Ok(())
}

/// The interfaces that are named.
fn numbers_of(alloc: Global, choice: &Choice<'_>) -> Result<Vec<usize>, NoMemory>
    ensures { IfOk result (λ numbers. numbers.items ≡ numbers_of choice.now) }
{
    let mut numbers = Vec::from_slice(alloc, choice.interfaces.as_slice())?;
    put_all_interfaces(&mut numbers, choice.points.as_slice())?;
    Ok(numbers)
}

/// The first of these numbers that no interface has, of so many.
fn missing_of(numbers: &[usize], many: usize) -> Option<usize>
    ensures { result ≡ missing_of numbers.now many }
{
    numbers.iter().copied().find(|number| *number >= many)
}

/// The capture that octets are, with the names of its interfaces apart.
#[tactic(auto, using(crate::proofs::Examined::no_capture, crate::proofs::Bounded::is_bounded))]
fn capture_of<'n, 'a>(
    alloc: Global,
    looking: &Looking<'_>,
    octets: &'a mut Vec<u8>,
    names: &'n mut Vec<u8>,
) -> Result<Capture<'n, 'a>, Fault>
    ensures found { IfOk result (λ capture. capture_of looking.now.fcs octets.old.items ≡ Ok capture) }
    ensures bounded { IfOk result (λ capture. IsBounded capture) }
    ensures fault { IfErr result (λ fault. IsUnseen looking.now octets.old.items fault) }
{
    Ok(Capture::read(alloc, looking.fcs, octets, names)?)
}

/// The report on a ring's health.
fn report_of(alloc: Global, looking: &Looking<'_>, health: &Health<'_>) -> Result<Report, NoMemory>
    ensures text { IfOk result (λ said. said.text.items
        ≡ report_text health.now looking.now.asked.choice.interfaces looking.now.asked.table looking.now.is_full) }
    ensures well { IfOk result (λ said. said.is_well ≡ (length health.now.reasons.items == 0)) }
{
    let interfaces = looking.asked.choice.interfaces.as_slice();
    let table = looking.asked.table;
    let text = report(alloc, health, interfaces, table, looking.is_full)?;
    Ok(Report {
        text,
        is_well: health.reasons.is_empty(),
    })
}

/// The first interface that is named and that a capture doesn't have.
fn lacking(
    alloc: Global,
    looking: &Looking<'_>,
    capture: &Capture<'_, '_>,
) -> Result<Option<usize>, NoMemory>
    ensures { IfOk result (λ missing. missing
        ≡ missing_of (numbers_of looking.now.asked.choice) (length capture.now.interfaces)) }
{
    let numbers = numbers_of(alloc, &looking.asked.choice)?;
    Ok(missing_of(numbers.as_slice(), capture.interfaces.len()))
}

/// What is gathered of a capture, or that an interface is named which isn't there.
#[derive(Drop)]
enum Found<'a> {
    Gathered(Gathered<'a>),
    NoInterface(usize),
}

/// What is gathered of the capture that octets are; the names of its interfaces stand apart. The octets go here, before most is told: they
/// take more room than all that is told of them.
#[tactic(auto, using(crate::proofs::Examined::is_lacking, crate::proofs::Examined::is_gathered))]
fn gathered_in<'n>(
    alloc: Global,
    looking: &Looking<'n>,
    octets: Vec<u8>,
    names: &'n mut Vec<u8>,
) -> Result<Found<'n>, Fault>
    ensures found { IfOk result (λ found. IsFound looking.now octets.items found) }
    ensures unseen { IfErr result (λ fault. IsUnseen looking.now octets.items fault) }
{
    let mut octets = octets;
    let capture = capture_of(alloc, looking, &mut octets, names)?;
    match lacking(alloc, looking, &capture)? {
        Some(number) => Ok(Found::NoInterface(number)),
        None => Ok(Found::Gathered(gathered_of(alloc, capture, &looking.asked)?)),
    }
}

/// The report on the health of the ring that a capture shows, by what was gathered of it, in which these sources are expected.
#[tactic(auto, using(crate::proofs::Examined::is_examined, crate::proofs::Examined::untellable))]
fn report_on(
    alloc: Global,
    looking: &Looking<'_>,
    expected: &[Mac],
    gathered: Gathered<'_>,
) -> Result<Report, Fault>
    requires { (octets : List ℕ) × IsGatheredOf looking.now octets gathered }
    ensures told { IfOk result (λ said. (octets : List ℕ) → IsGatheredOf looking.now octets gathered.entry
        → IsExamined looking.now expected.now octets said.text.items said.is_well) }
    ensures unseen { IfErr result (λ fault. IsUntellable looking.now gathered.entry fault) }
{
    let health = health_of(alloc, gathered, &looking.asked, expected)?;
    Ok(report_of(alloc, looking, &health)?)
}

/// What is seen of the capture that octets are, in which these sources are expected.
#[tactic(auto, using(crate::proofs::Examined::is_seen, crate::proofs::Examined::unseen))]
fn seen_of(
    alloc: Global,
    looking: &Looking<'_>,
    expected: &[Mac],
    octets: Vec<u8>,
) -> Result<Seen, Fault>
    ensures seen { IfOk result (λ seen. IsSeen looking.now expected.now octets.items seen) }
    ensures unseen { IfErr result (λ fault. IsUnseen looking.now octets.items fault) }
{
    let mut names = Vec::new(alloc);
    match gathered_in(alloc, looking, octets, &mut names)? {
        Found::Gathered(gathered) => Ok(Seen::Told(report_on(alloc, looking, expected, gathered)?)),
        Found::NoInterface(number) => Ok(Seen::NoInterface(number)),
    }
}

/// These addresses once more.
fn copied(alloc: Global, macs: &[Mac]) -> Result<Vec<Mac>, NoMemory>
    ensures { IfOk result (λ own. own.items ≡ macs.now) }
{
    Ok(Vec::from_slice(alloc, macs)?)
}

/// The sources that are expected: these, or those of a plan, if there is one.
#[tactic(auto, using(crate::proofs::Examined::no_plan))]
fn expected_by(alloc: Global, macs: &[Mac], plan: Option<&[u8]>) -> Result<Vec<Mac>, Fault>
    ensures some { IfOk result (λ expected.
        expected_by macs.now (option_map (λ p. p.now) plan.entry) ≡ Some expected.items) }
    ensures none { IfErr result (λ fault. IsUnexpected (option_map (λ p. p.now) plan.entry) fault) }
{
    match plan {
        Some(plan) => Ok(expected_of(alloc, plan)?),
        None => Ok(copied(alloc, macs)?),
    }
}

/// What is seen of the capture that a reader gives, in which these sources are expected. Of one that is too large no more is read than what
/// tells it.
#[tactic(auto, using(crate::proofs::Examined::seen_of_whole, crate::proofs::Examined::unseen_of_whole, crate::proofs::Examined::no_input))]
fn seen_from<R: Read>(
    alloc: Global,
    looking: &Looking<'_>,
    expected: &[Mac],
    reader: &mut R,
) -> Result<Seen, Fault>
    ensures seen { IfOk result (λ seen. IfSome (R.remaining reader.old) (λ octets. IsSeen looking.now expected.now octets seen)) }
    ensures unseen { IfErr result (λ fault. IfSome (R.remaining reader.old) (λ octets. IsUnseen looking.now octets fault)) }
{
    let octets = octets_from(alloc, reader)?;
    seen_of(alloc, looking, expected, octets)
}

/// Writes what is seen of the capture that a reader gives, in which these sources are expected: all of it, or nothing. Gives how it ended.
#[tactic(auto, using(crate::proofs::Examined::not_seen, crate::proofs::Examined::not_delivered, crate::proofs::Examined::delivered, crate::proofs::Examined::not_there))]
fn show<R: Read, W: Write>(
    alloc: Global,
    looking: &Looking<'_>,
    expected: &[Mac],
    reader: &mut R,
    writer: &mut W,
) -> Result<Ended, Fault>
    ensures { IfSome (R.remaining reader.old) (λ octets. ShowsOf looking.now expected.now octets
        (W.contents writer.old) (W.contents writer.new) result) }
{
    match seen_from(alloc, looking, expected, reader)? {
        Seen::Told(report) => Ok(Ended::Told(report_to(writer, &report)?)),
        Seen::NoInterface(number) => Ok(Ended::NoInterface(number)),
    }
}

/// The same, where the sources that are expected may be those of a plan.
#[tactic(auto, using(crate::proofs::Examined::shows, crate::proofs::Examined::unexpected))]
fn examine<R: Read, W: Write>(
    alloc: Global,
    looking: &Looking<'_>,
    macs: &[Mac],
    plan: Option<&[u8]>,
    reader: &mut R,
    writer: &mut W,
) -> Result<Ended, Fault>
    ensures { IfSome (R.remaining reader.old) (λ octets. Shows looking.now macs.now (option_map (λ p. p.now) plan.entry) octets
        (W.contents writer.old) (W.contents writer.new) result) }
{
    let expected = expected_by(alloc, macs, plan)?;
    show(alloc, looking, expected.as_slice(), reader, writer)
}

/// Tells that an interface is named which a capture doesn't have, and gives the status of the process.
fn tell_missing<E: Write>(errors: &mut E, number: usize) -> io::Result<u8>
    ensures { IfOk result (λ code. TellsEnded (E.contents errors.old) (E.contents errors.new) (Ok (NoInterface number)) code) }
{
    writeln!(errors, "the capture has no interface {number}")?;
    Ok(REFUSED)
}

/// Tells how it ended: that an interface isn't there, or the line of a fault. Gives the status of the process.
fn tell_ended<E: Write>(
    alloc: Global,
    errors: &mut E,
    ended: &Result<Ended, Fault>,
) -> io::Result<u8>
    ensures { IfOk result (λ code. TellsEnded (E.contents errors.old) (E.contents errors.new) ended.now code) }
{
    match ended {
        Ok(Ended::Told(is_healthy)) => Ok(status_of(*is_healthy)),
        Ok(Ended::NoInterface(number)) => tell_missing(errors, *number),
        Err(fault) => tell_fault(alloc, errors, fault),
    }
}

/// Reads a capture, and writes the report on the health of the ring that it shows, in which these sources are expected, or those of a plan,
/// if one is given. Gives the status of the process: 0 where the ring is healthy, 2 where there is a doubt; 3 where an interface is named
/// that the capture doesn't have, 1 after a fault, and then the line of it is all that was written on `errors`, and nothing was written on
/// `writer`, unless that itself failed. The error of `errors`, where the line can't be written there.
pub fn health_run<R: Read, W: Write, E: Write>(
    alloc: Global,
    looking: &Looking<'_>,
    macs: &[Mac],
    plan: Option<&[u8]>,
    reader: &mut R,
    writer: &mut W,
    errors: &mut E,
) -> io::Result<u8>
    ensures { IfOk result (λ code. IfSome (R.remaining reader.old) (λ octets.
        Examines looking.now macs.now (option_map (λ p. p.now) plan.entry) octets (W.contents writer.old)
        (W.contents writer.new) (E.contents errors.old) (E.contents errors.new) code)) }
{
    let ended = examine(alloc, looking, macs, plan, reader, writer);
    tell_ended(alloc, errors, &ended)
}
