//! A plan's run, over a reader, two writers and files.
ghost use Rattle.std.specs.Prelude.{◌≡◌, IfOk, IfSome};
ghost use Rattle.hsr_commands.specs.Shown.{outputs};
ghost use Rattle.hsr_plan_run.specs.Ends.{RunEnds};
ghost use Rattle.hsr_table_size.specs.Sizes.{capacity_of};

use crate::question::Question;
use crate::shown::shown_in;
use crate::telling::{delivered, told};
use hsr_commands::Notes;
use hsr_files::Disk;
use hsr_plan_scenario::{Ending, complain, fail, read_text};
use hsr_plan_text::TEXT_LIMIT;
use hsr_table_size::TableSize;
use std::alloc::Global;
use std::io::{self, Read, Write};

/// Writes what is shown of the run of what octets say as a plan, or the line of what is wrong.
#[tactic(auto, using(crate::proofs::Whole::shown_ends, crate::proofs::Whole::unrun_ends, hsr_commands::proofs::Telling::nothing_written))]
fn answer<W: Write, D: Disk, E: Write>(
    alloc: Global,
    table: TableSize,
    octets: &[u8],
    question: Question<'_>,
    writer: &mut W,
    disk: &mut D,
    errors: &mut E,
) -> io::Result<Ending>
    ensures { IfOk result (RunEnds (capacity_of table) question.entry octets.now
        (outputs (W.contents writer.old) (D.puts disk.old))
        (outputs (W.contents writer.new) (D.puts disk.new)) (E.contents errors.old) (E.contents errors.new)) }
{
    let mut notes = Notes::new(alloc, question.explains);
    match shown_in(alloc, table, octets, question, &mut notes) {
        Ok(shown) => {
            let status = delivered(alloc, writer, disk, question.folder, &shown, &mut notes);
            let lines = notes.explanation.lines.as_slice();
            told(alloc, errors, status, question.explains, lines)
        }
        Err(line) => complain(alloc, errors, line),
    }
}

/// Reads a plan, plays what it means with tables of the size `table`, and writes the report of its run, or its transcript, as the bench
/// writes it of a scenario that says what the plan means, with its names: the status tells what the chosen audit found. Where a folder is
/// given, the run's tables are put there before. Where that is asked for, `errors` then has lines that explain a doubt. Of a scenario's limits
/// none holds but that on steps: a drain takes at most 1,000,000 of them. Where there is no run, nothing is written but one line on
/// `errors`, as by `plan_run`: of a plan that means nothing, or of which an order is refused, as where copies circle. A table that can't be
/// put is such a line too; the tables before it are there then, and no text is written. The error of `errors`, where a line can't be
/// written there.
pub fn plan_report_run<R: Read, W: Write, D: Disk, E: Write>(
    alloc: Global,
    reader: &mut R,
    writer: &mut W,
    disk: &mut D,
    errors: &mut E,
    table: TableSize,
    question: Question<'_>,
) -> io::Result<Ending>
    ensures { IfOk result (λ ending. IfSome (R.remaining reader.old) (λ octets.
        RunEnds (capacity_of table) question.entry octets (outputs (W.contents writer.old) (D.puts disk.old))
        (outputs (W.contents writer.new) (D.puts disk.new)) (E.contents errors.old) (E.contents errors.new) ending)) }
{
    match read_text(alloc, reader, TEXT_LIMIT) {
        Ok(octets) => answer(
            alloc,
            table,
            octets.as_slice(),
            question,
            writer,
            disk,
            errors,
        ),
        Err(fault) => fail(errors, fault),
    }
}
