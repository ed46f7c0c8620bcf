//! How what is shown of a plan's run is written and told.
ghost use Rattle.std.specs.Prelude.{IfOk, OnOk, false};
ghost use Rattle.hsr_commands.specs.Shown.{IsDelivered, outputs, text_if};
ghost use Rattle.hsr_commands.specs.declared.fault.Fault.TheVariants.{Tables};
ghost use Rattle.hsr_commands.specs.declared.fault.Status.TheVariants.{Fault as Stopped};
ghost use Rattle.hsr_plan_run.specs.Ends.{TellsEnd, TellsMore};

use hsr_commands::{Fault, Notes, ShownRun, Status, deliver, put_explanation};
use hsr_files::Disk;
use hsr_plan_scenario::{Ending, InputFault, complain, fail, words};
use std::alloc::Global;
use std::io::{self, Write};

/// Puts the tables of a run, writes its text, and flushes it.
pub(crate) fn delivered<W: Write, D: Disk>(
    alloc: Global,
    writer: &mut W,
    disk: &mut D,
    folder: Option<&str>,
    shown: &ShownRun,
    notes: &mut Notes,
) -> Status
    ensures { IsDelivered (text_if folder.entry) (outputs (W.contents writer.old) (D.puts disk.old))
        (outputs (W.contents writer.new) (D.puts disk.new)) shown.now result }
{
    let status = deliver(alloc, writer, disk, folder, shown, notes);
    match status {
        // A flush that fails is a failed write: what stood in a buffer isn't there.
        Status::Certified | Status::Doubt => match writer.flush() {
            Ok(()) => status,
            Err(_) => Status::Fault(Fault::Write),
        },
        _ => status,
    }
}

/// Writes what is explained, where that is asked for; nothing if allocation fails.
fn explain<E: Write>(
    alloc: Global,
    errors: &mut E,
    explains: bool,
    lines: &[Vec<u8>],
) -> io::Result<()>
    ensures { OnOk result (TellsMore explains (E.contents errors.old) (E.contents errors.new)) }
{
    if !explains {
        return Ok(());
    }
    let mut text = Vec::new(alloc);
    if put_explanation(&mut text, lines).is_err() {
        // A failed allocation leaves out what is explained, and nothing else: the status stays.
        return Ok(());
    }
    errors.write_all(text.as_slice())
}

/// Tells that a table can't be put.
#[tactic(auto, using(crate::proofs::Whole::fault_told))]
fn tell_tables<E: Write>(alloc: Global, errors: &mut E) -> io::Result<Ending>
    ensures { IfOk result (TellsEnd false (Stopped Tables) (E.contents errors.old)
        (E.contents errors.new)) }
{
    let why = "fault: tables: the folder of --csv isn't there, or a file can't be written in it";
    complain(alloc, errors, words(alloc, why))
}

/// Tells how it ended.
pub(crate) fn told<E: Write>(
    alloc: Global,
    errors: &mut E,
    status: Status,
    explains: bool,
    lines: &[Vec<u8>],
) -> io::Result<Ending>
    ensures { IfOk result (TellsEnd explains status (E.contents errors.old)
        (E.contents errors.new)) }
{
    match status {
        Status::Certified => {
            explain(alloc, errors, explains, lines)?;
            Ok(Ending::Planned)
        }
        Status::Doubt => {
            explain(alloc, errors, explains, lines)?;
            Ok(Ending::Doubted)
        }
        Status::Fault(Fault::Write) => Ok(Ending::Unwritten),
        Status::Fault(Fault::Memory) => fail(errors, InputFault::Memory),
        Status::Fault(Fault::Tables) => tell_tables(alloc, errors),
        // Not met: what is delivered ends in no other way.
        _ => Ok(Ending::Unwritten),
    }
}
