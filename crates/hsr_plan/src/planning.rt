//! The whole program, over arguments, a reader, files and two writers.
ghost use Rattle.std.specs.Prelude.{◌≡◌, IfOk, IfSome, OnOk, map, option_map};
ghost use Rattle.hsr_table_size.specs.Sizes.{capacity_of};
ghost use Rattle.hsr_commands.specs.Shown.{outputs};
ghost use Rattle.hsr_plan_scenario.specs.Ends.{Ends, code_of};
ghost use Rattle.hsr_plan_run.specs.Ends.{RunEnds};
ghost use Rattle.hsr_plan_report.specs.Report.{ReportEnds};
ghost use Rattle.hsr_plan_sweep.specs.Swept.{SweepEnds};
ghost use Rattle.hsr_plan.specs.Planning.{Answers, Does, IsDone, Plans, TellsWrite, asked_of, part_of, question_of, report_asked};

use hsr_cli::{
    Faults, OptionFault, Part as PartWords, ReportWords, SweepWords, Task, task_by, turn_away,
};
use hsr_files::Disk;
use hsr_plan_certify::{Question, certify_plan_run};
use hsr_plan_outages::AtOnce;
use hsr_plan_report::{Asked as ReportAsked, report_run};
use hsr_plan_run::{Question as RunQuestion, Showing, plan_report_run};
use hsr_plan_scenario::{Ending, check_run, plan_run};
use hsr_plan_sweep::{Asked, Part, sweep_run};
use hsr_table_size::{TableSize, at_size};
use std::alloc::Global;
use std::io::{self, Read, Write};
use std::marker::Sync;
use std::thread::Threads;

/// Writes the scenario of a plan, for a run with tables of this size.
fn planned<R: Read, W: Write, E: Write>(
    alloc: Global,
    table: TableSize,
    reader: &mut R,
    writer: &mut W,
    errors: &mut E,
) -> io::Result<Ending>
    ensures { IfOk result (λ ending. IfSome (R.remaining reader.old) (λ text.
        Ends (capacity_of table) text (W.contents writer.old) (W.contents writer.new)
        (E.contents errors.old) (E.contents errors.new) ending)) }
{
    at_size!(table => plan_run[_, _, _](alloc, reader, writer, errors))
}

/// The part of a sweep that is meant by these words.
fn part_of(words: PartWords) -> Part
    ensures { result ≡ part_of words }
{
    Part {
        number: words.number,
        of: words.of,
    }
}

/// What a sweep is asked for by these words.
fn asked_of(words: SweepWords) -> Asked
    ensures { result ≡ asked_of words }
{
    let part = match words.part {
        Some(part) => Some(part_of(part)),
        None => None,
    };
    Asked {
        at: words.at,
        without_events: words.without_events,
        pairs: words.pairs,
        part,
        limit_load: words.limit_load,
        limit_latency: words.limit_latency,
    }
}

/// What is asked of a plan by these words.
fn question_of(within: Option<u64>, faults: Faults) -> Question
    ensures { result ≡ question_of within faults }
{
    let faults = match faults {
        Faults::None => None,
        Faults::One => Some(AtOnce::One),
        Faults::Two => Some(AtOnce::Two),
    };
    Question { within, faults }
}

/// Writes what is shown of a plan's run.
fn ran<R: Read, W: Write, D: Disk, E: Write>(
    alloc: Global,
    table: TableSize,
    showing: Showing,
    folder: Option<&str>,
    explains: bool,
    reader: &mut R,
    writer: &mut W,
    disk: &mut D,
    errors: &mut E,
) -> io::Result<Ending>
    ensures { IfOk result (λ ending. IfSome (R.remaining reader.old) (λ text.
        RunEnds (capacity_of table) (record { showing = showing; folder = folder.entry; explains = explains }) text
        (outputs (W.contents writer.old) (D.puts disk.old))
        (outputs (W.contents writer.new) (D.puts disk.new))
        (E.contents errors.old) (E.contents errors.new) ending)) }
{
    let question = RunQuestion {
        showing,
        folder,
        explains,
    };
    plan_report_run(alloc, reader, writer, disk, errors, table, question)
}

/// Writes the lines of a plan's sweep.
fn swept<H: Threads + Sync, R: Read, W: Write, E: Write>(
    rt: &H,
    alloc: Global,
    words: SweepWords,
    is_shown: bool,
    reader: &mut R,
    writer: &mut W,
    errors: &mut E,
) -> io::Result<Ending>
    ensures { IfOk result (λ ending. IfSome (R.remaining reader.old) (λ text.
        SweepEnds text (asked_of words) is_shown (W.contents writer.old) (W.contents writer.new)
        (E.contents errors.old) (E.contents errors.new) ending)) }
{
    sweep_run(rt, alloc, reader, writer, errors, asked_of(words), is_shown)
}

/// What a page is asked for by these words.
fn report_asked<'a>(words: ReportWords<'a>) -> ReportAsked<'a>
    ensures { result ≡ report_asked words.entry }
{
    ReportAsked {
        date: words.date,
        at: words.at,
        within: words.within,
        limit_load: words.limit_load,
        limit_latency: words.limit_latency,
    }
}

/// Writes the page of a plan.
fn reported<H: Threads + Sync, R: Read, W: Write, E: Write>(
    rt: &H,
    alloc: Global,
    words: ReportWords<'_>,
    is_shown: bool,
    reader: &mut R,
    writer: &mut W,
    errors: &mut E,
) -> io::Result<Ending>
    ensures { IfOk result (λ ending. IfSome (R.remaining reader.old) (λ text.
        ReportEnds text (report_asked words.entry) is_shown (W.contents writer.old) (W.contents writer.new)
        (E.contents errors.old) (E.contents errors.new) ending)) }
{
    let asked = report_asked(words);
    report_run(rt, alloc, reader, writer, errors, asked, is_shown)
}

/// Does what was chosen. Only a sweep and a page on a terminal show how far they are.
#[tactic(auto, using(hsr_files::proofs::Puts::none_put))]
fn perform<H: Threads + Sync, R: Read, W: Write, D: Disk, E: Write>(
    rt: &H,
    alloc: Global,
    task: Task<'_>,
    is_terminal: bool,
    reader: &mut R,
    writer: &mut W,
    disk: &mut D,
    errors: &mut E,
) -> io::Result<Ending>
    ensures { IfOk result (λ ending. IfSome (R.remaining reader.old) (λ text.
        Does task.entry text is_terminal (outputs (W.contents writer.old) (D.puts disk.old))
        (outputs (W.contents writer.new) (D.puts disk.new))
        (E.contents errors.old) (E.contents errors.new) ending)) }
{
    match task {
        Task::Plan { table } => planned(alloc, table, reader, writer, errors),
        Task::Check => check_run(alloc, reader, errors),
        Task::Run {
            table,
            showing,
            folder,
            explains,
        } => ran(
            alloc, table, showing, folder, explains, reader, writer, disk, errors,
        ),
        Task::Sweep(words) => swept(rt, alloc, words, is_terminal, reader, writer, errors),
        Task::Certify {
            table,
            within,
            faults,
        } => certify_plan_run(
            alloc,
            reader,
            writer,
            errors,
            table,
            question_of(within, faults),
        ),
        Task::Report(words) => reported(rt, alloc, words, is_terminal, reader, writer, errors),
    }
}

/// Tells of a failed write, and gives the status of the process.
fn finish<E: Write>(errors: &mut E, ending: Ending) -> io::Result<u8>
    ensures code { IfOk result (λ code. code ≡ code_of ending) }
    ensures told { OnOk result (TellsWrite ending (E.contents errors.old) (E.contents errors.new)) }
{
    if ending == Ending::Unwritten {
        errors.write_all(b"fault: write\n")?;
    }
    Ok(ending.code())
}

/// Does what was chosen, tells of a failed write, and gives the status of the process.
fn done<H: Threads + Sync, R: Read, W: Write, D: Disk, E: Write>(
    rt: &H,
    alloc: Global,
    task: Task<'_>,
    is_terminal: bool,
    reader: &mut R,
    writer: &mut W,
    disk: &mut D,
    errors: &mut E,
) -> io::Result<u8>
    ensures { IfOk result (λ code. IfSome (R.remaining reader.old) (λ text.
        IsDone task.entry text is_terminal (outputs (W.contents writer.old) (D.puts disk.old))
        (outputs (W.contents writer.new) (D.puts disk.new))
        (E.contents errors.old) (E.contents errors.new) code)) }
{
    let ending = perform(rt, alloc, task, is_terminal, reader, writer, disk, errors)?;
    finish(errors, ending)
}

/// Does what was chosen, or tells why nothing was.
#[tactic(auto, using(hsr_files::proofs::Puts::none_put))]
fn answer<H: Threads + Sync, R: Read, W: Write, D: Disk, E: Write>(
    rt: &H,
    alloc: Global,
    chosen: &Result<Task<'_>, OptionFault>,
    is_terminal: bool,
    reader: &mut R,
    writer: &mut W,
    disk: &mut D,
    errors: &mut E,
) -> io::Result<u8>
    ensures { IfOk result (λ code. IfSome (R.remaining reader.old) (λ text.
        Answers chosen.now text is_terminal (outputs (W.contents writer.old) (D.puts disk.old))
        (outputs (W.contents writer.new) (D.puts disk.new))
        (E.contents errors.old) (E.contents errors.new) code)) }
{
    match chosen {
        Ok(task) => done(rt, alloc, *task, is_terminal, reader, writer, disk, errors),
        Err(fault) => turn_away(errors, fault),
    }
}

/// Does what the arguments after the program's name choose, over a text that is read, files, standard output and standard
/// error, and gives the status of the process: 0 where the scenario was written, a scenario is right, a plan's run is
/// certified, all of a sweep is complete, a plan is certified, or a page that tells no doubt was written; 1 after a fault, whose lines are then on standard error, and
/// nothing was written; 2 where a doubt was written; 3 where the arguments are refused, by a text on standard error. The
/// error of `errors`, where a line can't be written there.
pub fn plan<'a, H: Threads + Sync, R: Read, W: Write, D: Disk, E: Write>(
    rt: &H,
    alloc: Global,
    words: &'a [&'a str],
    is_terminal: bool,
    reader: &mut R,
    writer: &mut W,
    disk: &mut D,
    errors: &mut E,
) -> io::Result<u8>
    ensures { IfOk result (λ code. IfSome (R.remaining reader.old) (λ text.
        Plans (map (λ s. s.now) words.entry.now) text is_terminal
        (outputs (W.contents writer.old) (D.puts disk.old))
        (outputs (W.contents writer.new) (D.puts disk.new))
        (E.contents errors.old) (E.contents errors.new) code)) }
{
    let chosen = task_by(alloc, words);
    answer(
        rt,
        alloc,
        &chosen,
        is_terminal,
        reader,
        writer,
        disk,
        errors,
    )
}
