//! What is written of a finished run: its transcript or its report, and its tables.
ghost use Rattle.std.specs.Prelude.{◌≡◌, ◌⊎◌, IfErr, IfOk, OnErr, OnOk};
ghost use Rattle.hsr_files.specs.Files.{Puts, PutsFront};
ghost use Rattle.hsr_transcript.specs.Transcript.{run_text};
ghost use Rattle.hsr_finished_run.specs.Finished.{IsFinished};
ghost use Rattle.hsr_report.specs.Found.{IsFound, IsReportOf};
ghost use Rattle.hsr_commands.specs.Naming.{names_in};
ghost use Rattle.hsr_commands.specs.Shown.{AreTablesIf, IsDelivered, IsShown, IsShownOf, files_if, outputs, status_of, table_files, text_if};
ghost use Rattle.hsr_commands.specs.declared.fault.Fault.TheVariants.{Memory, Tables};

use crate::fault::{Fault, Status};
use crate::naming::naming_of;
use crate::notes::Notes;
use hsr_files::{Disk, NewFile, put_files};
use hsr_finished_run::Closed;
use hsr_naming::Naming;
use hsr_options::{Asked, Form, Scope, Showing};
use hsr_report::{Finding, found, report};
use hsr_run_tables::{RunTables, run_tables};
use hsr_transcript::write;
use std::alloc::Global;
use std::io::Write;
use std::mem;

/// What is shown of a finished run: what its audit found, a text, and its tables, if a folder is given for them.
#[derive(Drop)]
pub struct ShownRun {
    pub finding: Finding,
    pub text: Vec<u8>,
    pub tables: Option<RunTables>,
}

/// Leaves what isn't needed any more as it is: a run that was shown, and orders that were done.
// The program ends with what is shown, and all its memory goes back at once: to free each copy and each order by itself first would only
// take time.
pub(crate) fn leave<T: Drop>(used: T) {
    mem::forget(used);
}

/// The transcript of a finished run.
fn run_text<const C: usize>(alloc: Global, closed: &Closed<C>) -> Result<Vec<u8>, Fault>
    ensures ok { IfOk result (λ text. text.items ≡ run_text closed.now) }
    ensures err { IfErr result (λ f. f ≡ Memory) }
{
    let mut text = Vec::new(alloc);
    match write(alloc, closed, &mut text) {
        Ok(()) => Ok(text),
        // a list of octets fails only where an allocation fails
        Err(_) => Err(Fault::Memory),
    }
}

/// How a run ends of which this was found.
fn status_of(finding: Finding) -> Status
    ensures { result ≡ status_of finding }
{
    match finding {
        Finding::Certified(_) => Status::Certified,
        Finding::Doubt(_) => Status::Doubt,
    }
}

/// The report of a finished run of which the chosen audit found this, with the parts that are asked for.
/// `Fault::Memory` if allocation fails, and no other fault.
pub fn report_of<const C: usize>(
    alloc: Global,
    closed: &Closed<C>,
    naming: &Naming,
    scope: Scope,
    finding: Finding,
    asked: Asked,
) -> Result<Vec<u8>, Fault>
    ensures ok { IfOk result
        (λ text. IsReportOf naming.now scope asked closed.now.run finding text.items) }
    ensures finished { OnOk result (IsFinished closed.now) }
    ensures err { IfErr result (λ f. f ≡ Memory) }
{
    match report(alloc, closed, naming, scope, finding, asked) {
        Ok(text) => Ok(text),
        Err(_) => Err(Fault::Memory),
    }
}

/// What the chosen audit of a finished run finds.
/// `Fault::Memory` if allocation fails, and no other fault.
pub fn finding_of<const C: usize>(
    alloc: Global,
    closed: &Closed<C>,
    scope: Scope,
) -> Result<Finding, Fault>
    ensures ok { IfOk result (λ finding. IsFound scope closed.now.run finding) }
    ensures err { IfErr result (λ f. f ≡ Memory) }
{
    match found(alloc, closed, scope) {
        Ok(finding) => Ok(finding),
        Err(_) => Err(Fault::Memory),
    }
}

/// The transcript of a finished run, or the report of what the chosen audit found of it.
fn text_of<const C: usize>(
    alloc: Global,
    closed: &Closed<C>,
    naming: &Naming,
    finding: Finding,
    showing: Showing,
) -> Result<Vec<u8>, Fault>
    ensures ok { IfOk result
        (λ text. IsShown naming.now showing.scope showing.form closed.now finding text.items) }
    ensures err { IfErr result (λ f. f ≡ Memory) }
{
    match showing.form {
        Form::Transcript => run_text(alloc, closed),
        Form::Report(asked) => report_of(alloc, closed, naming, showing.scope, finding, asked),
    }
}

/// The tables of a finished run of which the chosen audit found this, if a folder is given for them.
/// `Fault::Memory` if allocation fails, and no other fault.
pub fn tables_if<const C: usize>(
    alloc: Global,
    closed: &Closed<C>,
    naming: &Naming,
    scope: Scope,
    finding: Finding,
    folder: Option<&str>,
) -> Result<Option<RunTables>, Fault>
    ensures ok { IfOk result (AreTablesIf (text_if folder.entry) naming.now scope closed.now.run
        finding) }
    ensures err { IfErr result (λ f. f ≡ Memory) }
{
    if folder.is_none() {
        return Ok(None);
    }
    match run_tables(alloc, closed, naming, scope, finding) {
        Ok(tables) => Ok(Some(tables)),
        Err(_) => Err(Fault::Memory),
    }
}

/// What is shown of a finished run of which the chosen audit found this, all by one naming.
/// `Fault::Memory` if allocation fails, and no other fault.
pub fn shown_by<const C: usize>(
    alloc: Global,
    closed: &Closed<C>,
    naming: &Naming,
    finding: Finding,
    showing: Showing,
    folder: Option<&str>,
) -> Result<ShownRun, Fault>
    ensures finding { IfOk result (λ r. r.finding ≡ finding) }
    ensures text { IfOk result (λ r. IsShown naming.now showing.scope showing.form closed.now
        finding r.text.items) }
    ensures tables { IfOk result (λ r. AreTablesIf (text_if folder.entry) naming.now showing.scope
        closed.now.run finding r.tables) }
    ensures err { IfErr result (λ f. f ≡ Memory) }
{
    let text = match text_of(alloc, closed, naming, finding, showing) {
        Ok(text) => text,
        Err(fault) => return Err(fault),
    };
    match tables_if(alloc, closed, naming, showing.scope, finding, folder) {
        Ok(tables) => Ok(ShownRun {
            finding,
            text,
            tables,
        }),
        Err(fault) => Err(fault),
    }
}

/// Whether the budget of a run is asked for.
pub fn asks_budget(showing: Showing) -> bool {
    match showing.form {
        Form::Transcript => false,
        Form::Report(asked) => asked.budget,
    }
}

/// Audits a finished run of the scenario that octets mean, and forms what is shown of it.
/// The audit is made for a transcript too, since the status tells what it found. `Fault::Memory` if allocation
/// fails, and no other fault.
pub fn audit_and_show<const C: usize>(
    alloc: Global,
    octets: &[u8],
    closed: &Closed<C>,
    showing: Showing,
    folder: Option<&str>,
) -> Result<ShownRun, Fault>
    ensures ok { IfOk result (IsShownOf showing (names_in octets.now) (text_if folder.entry)
        closed.now) }
    ensures err { IfErr result (λ f. f ≡ Memory) }
{
    // Audited for a transcript too, since the status tells what was found.
    let finding = match finding_of(alloc, closed, showing.scope) {
        Ok(finding) => finding,
        Err(fault) => return Err(fault),
    };
    match naming_of(alloc, octets, closed, showing.names) {
        Ok(naming) => shown_by(alloc, closed, &naming, finding, showing, folder),
        Err(fault) => Err(fault),
    }
}

/// Puts the tables of a run into a folder, up to the first that can't be put.
fn put_tables<D: Disk>(
    alloc: Global,
    disk: &mut D,
    folder: &str,
    tables: &RunTables,
) -> Result<(), Fault>
    ensures put { OnOk result (Puts (D.puts disk.old) (D.puts disk.new)
        (table_files folder.now tables.now)) }
    ensures front { OnErr result (PutsFront (D.puts disk.old) (D.puts disk.new)
        (table_files folder.now tables.now)) }
    ensures err { IfErr result (λ f. (f ≡ Tables) ⊎ (f ≡ Memory)) }
{
    let files = [
        NewFile {
            name: "nodes.csv",
            octets: tables.nodes.as_slice(),
        },
        NewFile {
            name: "links.csv",
            octets: tables.links.as_slice(),
        },
        NewFile {
            name: "sends.csv",
            octets: tables.sends.as_slice(),
        },
        NewFile {
            name: "load.csv",
            octets: tables.load.as_slice(),
        },
        NewFile {
            name: "latency.csv",
            octets: tables.latency.as_slice(),
        },
        NewFile {
            name: "doubt.csv",
            octets: tables.doubt.as_slice(),
        },
    ];
    match put_files(alloc, disk, folder, files.as_slice()) {
        Ok(()) => Ok(()),
        Err(fault) => Err(Fault::of_put(fault)),
    }
}

/// Puts the tables of a run, if there are some, into the folder that is given for them.
#[tactic(auto, using(hsr_files::proofs::Puts::none_put))]
fn put_tables_if<D: Disk>(
    alloc: Global,
    disk: &mut D,
    folder: Option<&str>,
    tables: &Option<RunTables>,
) -> Result<(), Fault>
    ensures put { OnOk result (Puts (D.puts disk.old) (D.puts disk.new)
        (files_if (text_if folder.entry) tables.now)) }
    ensures front { OnErr result (PutsFront (D.puts disk.old) (D.puts disk.new)
        (files_if (text_if folder.entry) tables.now)) }
    ensures err { IfErr result (λ f. (f ≡ Tables) ⊎ (f ≡ Memory)) }
{
    match folder {
        None => Ok(()),
        Some(folder) => match tables {
            None => Ok(()),
            Some(tables) => put_tables(alloc, disk, folder, tables),
        },
    }
}

/// Puts the tables of a run, then writes its text, and tells how it ended. Where a table can't be put, no text is written, so that
/// there is no report beside tables of another run. It doesn't flush.
pub fn deliver<W: Write, D: Disk>(
    alloc: Global,
    writer: &mut W,
    disk: &mut D,
    folder: Option<&str>,
    shown: &ShownRun,
    notes: &mut Notes,
) -> Status
    ensures { IsDelivered (text_if folder.entry)
        (outputs (W.contents writer.old) (D.puts disk.old))
        (outputs (W.contents writer.new) (D.puts disk.new)) shown.now result }
{
    match put_tables_if(alloc, disk, folder, &shown.tables) {
        // What was written is flushed in one place, `bench`.
        Ok(()) => match writer.write_all(shown.text.as_slice()) {
            Ok(()) => status_of(shown.finding),
            Err(_) => Status::Fault(Fault::Write),
        },
        Err(fault) => {
            notes.of_unshown(alloc, &fault);
            Status::Fault(fault)
        }
    }
}
