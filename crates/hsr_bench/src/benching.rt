//! The whole program.
ghost use Rattle.std.specs.Prelude.{◌≡◌, IfOk, IfSome, OnOk, map};
ghost use Rattle.hsr_bench.specs.Benching.{Answers, AppendsLines, Benches, IsDone, Tells, explains};
ghost use Rattle.hsr_commands.specs.Shown.{outputs};

use crate::performing::perform;
use hsr_cli::{OptionFault, options, turn_away};
use hsr_commands::{Explanation, Fault, Notes, Status, put_explanation};
use hsr_files::Disk;
use hsr_options::Options;
use std::alloc::Global;
use std::io::{self, Read, Write};
use std::marker::Sync;
use std::sync::Wait;
use std::thread::Threads;

/// Writes what is explained; nothing if allocation fails.
fn explain<E: Write>(alloc: Global, errors: &mut E, lines: &[Vec<u8>]) -> io::Result<()>
    ensures { OnOk result (AppendsLines (E.contents errors.old) (E.contents errors.new)) }
{
    let mut text = Vec::new(alloc);
    if put_explanation(&mut text, lines).is_err() {
        // A failed allocation leaves out what is explained, and nothing else: the status stays.
        return Ok(());
    }
    errors.write_all(text.as_slice())
}

/// Tells how a run ended: a fault's line on standard error, what is explained behind it, and the status of the process.
fn report_ending<E: Write>(
    alloc: Global,
    errors: &mut E,
    status: Status,
    explains: bool,
    explanation: &Explanation,
) -> io::Result<u8>
    ensures { IfOk result (λ code. Tells explains (E.contents errors.old)
        (E.contents errors.new) status code) }
{
    if let Status::Fault(fault) = status {
        // The agreed line comes first, since scripts read one line.
        writeln!(errors, "{fault}")?;
    }
    if explains {
        explain(alloc, errors, explanation.lines.as_slice())?;
    }
    Ok(status.code())
}

/// Whether more is to be said of how a run ends.
fn explains(chosen: &Options<'_>) -> bool
    ensures { result ≡ explains chosen.now }
{
    match chosen {
        Options::Node(_) | Options::Certify { .. } => false,
        Options::Run { explains, .. }
        | Options::Threads { explains, .. }
        | Options::Audit { explains, .. } => *explains,
    }
}

/// Does what is chosen, and flushes what was written.
fn done<H: Threads + Wait + Sync, R: Read, W: Write, D: Disk>(
    rt: &H,
    alloc: Global,
    reader: &mut R,
    writer: &mut W,
    disk: &mut D,
    chosen: &Options<'_>,
    notes: &mut Notes,
) -> Status
    ensures { IfSome (R.remaining reader.old) (λ text. IsDone chosen.now text (D.texts disk.old)
        (outputs (W.contents writer.old) (D.puts disk.old))
        (outputs (W.contents writer.new) (D.puts disk.new)) result) }
{
    let status = perform(rt, alloc, reader, writer, disk, chosen, notes);
    // The one place where output is flushed. A flush that fails is a failed write.
    match writer.flush() {
        Ok(()) => status,
        Err(_) => Status::Fault(Fault::Write),
    }
}

/// Does what was chosen, or tells why nothing was.
#[tactic(auto, using(hsr_commands::proofs::Telling::nothing_written))]
fn answer<H: Threads + Wait + Sync, R: Read, W: Write, D: Disk, E: Write>(
    rt: &H,
    alloc: Global,
    chosen: &Result<Options<'_>, OptionFault>,
    reader: &mut R,
    writer: &mut W,
    disk: &mut D,
    errors: &mut E,
) -> io::Result<u8>
    ensures { IfOk result (λ code. IfSome (R.remaining reader.old) (λ text.
        Answers chosen.now text (D.texts disk.old) (outputs (W.contents writer.old) (D.puts disk.old))
        (outputs (W.contents writer.new) (D.puts disk.new)) (E.contents errors.old) (E.contents errors.new) code)) }
{
    match chosen {
        Ok(chosen) => {
            let mut notes = Notes::new(alloc, explains(chosen));
            let status = done(rt, alloc, reader, writer, disk, chosen, &mut notes);
            report_ending(alloc, errors, status, explains(chosen), &notes.explanation)
        }
        Err(fault) => turn_away(errors, fault),
    }
}

/// Does what the arguments say, over a text that is read, standard output, the files of the system and standard error, and gives the status
/// of the process: 0 where all lines were answered or the run is certified; 1 after a fault, whose line is then on standard error; 2 where
/// the run is doubted; 3 where the arguments are refused, by a text on standard error. Where it is asked for, lines on standard error say
/// what a fault or a doubt means. The error of `errors`, where a line can't be written there.
pub fn bench<'a, H: Threads + Wait + Sync, R: Read, W: Write, D: Disk, E: Write>(
    rt: &H,
    alloc: Global,
    words: &'a [&'a str],
    reader: &mut R,
    writer: &mut W,
    disk: &mut D,
    errors: &mut E,
) -> io::Result<u8>
    ensures { IfOk result (λ code. IfSome (R.remaining reader.old) (λ text.
        Benches (map (λ s. s.now) words.entry.now) text (D.texts disk.old) (outputs (W.contents writer.old) (D.puts disk.old))
        (outputs (W.contents writer.new) (D.puts disk.new)) (E.contents errors.old) (E.contents errors.new) code)) }
{
    let chosen = options(alloc, words);
    answer(rt, alloc, &chosen, reader, writer, disk, errors)
}
