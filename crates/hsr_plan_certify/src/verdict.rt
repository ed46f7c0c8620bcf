//! The verdict on a plan.
ghost use Rattle.std.specs.Prelude.{◌≡◌, IfErr, IfOk, IsOk, OnOk};
ghost use Rattle.hsr_certify_text.specs.Found.{IsFound};
ghost use Rattle.hsr_table_size.specs.Sizes.{capacity_of};
ghost use Rattle.hsr_plan_hops.specs.Moving.{MeansMoved};
ghost use Rattle.hsr_plan_certify.specs.Lines.{IsLineOf};
ghost use Rattle.hsr_plan_certify.specs.Verdicts.{IsCertification, IsTold, IsToldOf, IsUncertified, TellsFaults, TellsVerdict, coarsened, ending_of, part_in, setup_for};
ghost use Rattle.hsr_plan_scenario.specs.Refusals.{IsUnmoved};

use crate::part::part_of;
use crate::place::line_of_part;
use crate::question::Question;
use crate::words::put_told;
use hsr_certify_text::{Verdict, found, make_coarse};
use hsr_frame::NoMemory;
use hsr_plan_outages::put_outages;
use hsr_plan_scenario::{Ending, Line, Told, Trouble, line_of, moved};
use hsr_plan_schedule::Meaning;
use hsr_plan_text::Plan;
use hsr_table_size::{TableSize, at_size};
use std::alloc::Global;

/// How a run ends that writes a verdict.
fn ending_of(verdict: Verdict) -> Ending
    ensures { result ≡ ending_of verdict }
{
    match verdict {
        Verdict::Certified(_) => Ending::Planned,
        Verdict::Doubted(_) => Ending::Doubted,
    }
}

/// The line of the plan that a verdict names.
fn line_in(
    alloc: Global,
    text: &str,
    meaning: &Meaning,
    verdict: Verdict,
) -> Result<Option<usize>, NoMemory>
    ensures { IfOk result (IsLineOf text.now meaning.now.nodes (part_in meaning.now verdict)) }
{
    match verdict {
        Verdict::Certified(_) => Ok(None),
        Verdict::Doubted(doubt) => {
            let part = part_of(meaning, doubt);
            line_of_part(alloc, text, meaning.nodes.as_slice(), part)
        }
    }
}

/// A verdict, by names of the plan and with the line of its text.
fn words_of(
    alloc: Global,
    text: &str,
    meaning: &Meaning,
    verdict: Verdict,
) -> Result<Vec<u8>, NoMemory>
    ensures { IfOk result (λ words. TellsVerdict text.now meaning.now verdict words.items) }
{
    let line = line_in(alloc, text, meaning, verdict)?;
    let mut words = Vec::new(alloc);
    put_told(&mut words, meaning, verdict, line)?;
    Ok(words)
}

/// What is meant, without the moves of its copies, and with a drain behind all.
fn coarsened(meaning: Meaning) -> Result<Meaning, NoMemory>
    ensures { IfOk result (λ m. m ≡ coarsened meaning) }
{
    let mut coarse = meaning;
    // No frame is left out, so its stream stays where it is.
    make_coarse(&mut coarse.orders)?;
    Ok(coarse)
}

/// The verdict on what is meant, with tables of this size.
fn verdict_on(
    alloc: Global,
    table: TableSize,
    meaning: &Meaning,
    within: Option<u64>,
) -> Result<Verdict, NoMemory>
    ensures { IfOk result (IsFound (setup_for (capacity_of table) within meaning.now)) }
{
    let orders = meaning.orders.as_slice();
    found(
        alloc,
        &meaning.topology,
        meaning.capacity,
        table,
        orders,
        within,
    )
}

/// The verdict on a plan, and its line with a line feed, as `hsr_plan certify` prints it.
#[derive(Drop)]
pub struct Certification {
    pub verdict: Verdict,
    pub line: Vec<u8>,
}

/// The verdict on what is certified of a plan, with tables of this size, and its line.
fn certification_on(
    alloc: Global,
    table: TableSize,
    text: &str,
    meaning: &Meaning,
    within: Option<u64>,
) -> Result<Certification, NoMemory>
    ensures found { IfOk result (λ c. IsFound (setup_for (capacity_of table) within meaning.now) c.verdict) }
    ensures line { IfOk result (λ c. TellsVerdict text.now meaning.now c.verdict c.line.items) }
{
    let verdict = verdict_on(alloc, table, meaning, within)?;
    let line = words_of(alloc, text, meaning, verdict)?;
    Ok(Certification { verdict, line })
}

/// The verdict on what a plan means, whatever the order in which its copies move, with tables of this size; the text is the plan's. Its moves
/// of copies are left out, and a drain stands behind all. If it is said, only those orders are meant in which a copy is under way for less
/// than `within` microseconds. `NoMemory` if allocation fails.
pub fn certification_of(
    alloc: Global,
    table: TableSize,
    text: &str,
    meant: Meaning,
    within: Option<u64>,
) -> Result<Certification, NoMemory>
    ensures { IfOk result (λ c. IsCertification (capacity_of table) within text.now meant c.verdict c.line.items) }
{
    let meaning = coarsened(meant)?;
    let certification = certification_on(alloc, table, text, &meaning, within)?;
    Ok(certification)
}

/// Puts what faults cut off of what is meant behind the line of a certificate, if that is asked for.
fn put_faults(
    alloc: Global,
    text: &mut Vec<u8>,
    meaning: &Meaning,
    verdict: Verdict,
    question: Question,
) -> Result<(), NoMemory>
    ensures { OnOk result (TellsFaults question meaning.now verdict text.old.items text.new.items) }
{
    match (verdict, question.faults) {
        (Verdict::Certified(_), Some(at_once)) => put_outages(
            alloc,
            text,
            meaning.nodes.as_slice(),
            &meaning.topology,
            meaning.orders.as_slice(),
            question.within,
            at_once,
        ),
        _ => Ok(()),
    }
}

/// The verdict on what is meant, with tables of this size, in its words.
fn told_of_meaning(
    alloc: Global,
    table: TableSize,
    text: &str,
    meant: Meaning,
    question: Question,
) -> Result<Told, NoMemory>
    ensures { IfOk result (λ t. IsToldOf (capacity_of table) question text.now meant t.text.items
        t.ending) }
{
    let meaning = coarsened(meant)?;
    let certification = certification_on(alloc, table, text, &meaning, question.within)?;
    let verdict = certification.verdict;
    let mut words = certification.line;
    put_faults(alloc, &mut words, &meaning, verdict, question)?;
    Ok(Told {
        text: words,
        ending: ending_of(verdict),
    })
}

/// What a plan means in a world with tables of this size, once its copies move.
fn moved_in(alloc: Global, table: TableSize, plan: &Plan) -> Result<Meaning, Trouble>
    ensures means { IfOk result (MeansMoved (capacity_of table) plan.now) }
    ensures unmoved { IfErr result (IsUnmoved (capacity_of table) plan.now) }
{
    at_size!(table => moved[](alloc, plan))
}

/// The verdict on a plan, with tables of this size, in its words; or the line of what is wrong.
pub(crate) fn told_of(
    alloc: Global,
    table: TableSize,
    text: &str,
    plan: &Plan,
    question: Question,
) -> Result<Told, Line>
    ensures told { IfOk result (λ t. IsTold (capacity_of table) question text.now plan.now
        t.text.items t.ending) }
    ensures none { IfErr result (λ line. IsOk line → IsUncertified (capacity_of table) plan.now) }
{
    match moved_in(alloc, table, plan) {
        Ok(meant) => match told_of_meaning(alloc, table, text, meant, question) {
            Ok(told) => Ok(told),
            Err(_) => Err(Err(NoMemory)),
        },
        Err(trouble) => Err(line_of(alloc, text, &trouble)),
    }
}
