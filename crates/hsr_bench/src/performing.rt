//! What the arguments choose, done over a reader, a writer and files.
ghost use Rattle.std.specs.Prelude.{◌≡◌, ◌⊎◌, IfErr, IfOk, IfSome};
ghost use Rattle.hsr_bench.specs.Performing.{EndsNamed, IsFrontAt, IsNoText, Performs};
ghost use Rattle.hsr_commands.specs.AuditRun.{entries_for};
ghost use Rattle.hsr_commands.specs.Shown.{outputs};
ghost use Rattle.hsr_commands.specs.declared.fault.Fault.TheVariants.{Memory, Names as Misnamed};
ghost use Rattle.hsr_commands.specs.declared.fault.Status.TheVariants.{Fault as Stopped};
ghost use Rattle.hsr_given.specs.declared.unnamed.Unnamed.TheVariants.{NoFile};

use hsr_certifying::{Question, certify_run};
use hsr_commands::{
    AuditShowing, Fault, Notes, Status, audit_run, node_run, scenario_run, threads_run,
};
use hsr_files::Disk;
use hsr_given::{Unnamed, no_text};
use hsr_options::{Options, TableChoice};
use hsr_scenario::TEXT_LIMIT;
use hsr_text::InputFault;
use std::alloc::Global;
use std::io::{Read, Write};
use std::marker::Sync;
use std::sync::Wait;
use std::thread::Threads;

/// The text that octets are. `Fault::Names` where they are none, with what they are.
fn text_of(octets: &[u8]) -> Result<&str, Fault>
    ensures ok { IfOk result (λ text. text.now ≡ octets.now) }
    ensures err { IfErr result (IsNoText octets.now) }
{
    match str::from_utf8(octets) {
        Ok(text) => Ok(text),
        Err(_) => Err(Fault::Names(no_text(octets))),
    }
}

/// What the file at a path holds, or of one that is too long for a scenario a front that is too long. `Fault::Names` where it can't be read;
/// `Fault::Memory` if allocation fails.
fn octets_at<D: Disk>(alloc: Global, disk: &D, path: &str) -> Result<Vec<u8>, Fault>
    ensures ok { IfOk result (λ octets. IsFrontAt (D.texts disk.now path.now) octets.items) }
    ensures err { IfErr result (λ f. (f ≡ Misnamed NoFile) ⊎ (f ≡ Memory)) }
{
    match disk.text(alloc, path, TEXT_LIMIT) {
        Ok(octets) => Ok(octets),
        Err(InputFault::Read) => Err(Fault::Names(Unnamed::NoFile)),
        Err(InputFault::Memory) => Err(Fault::Memory),
    }
}

/// Stops before anything is read, since a scenario that is given isn't read.
fn stop(alloc: Global, fault: Fault, notes: &mut Notes) -> Status
    ensures { result ≡ Stopped fault }
{
    notes.of_fault(alloc, &[], &fault);
    Status::Fault(fault)
}

/// Audits a transcript, and shows its run with the names of the scenario at a path.
#[tactic(auto, using(crate::proofs::Audits::named_so, crate::proofs::Audits::unread_so, crate::proofs::Audits::no_text_so))]
fn audit_named<R: Read, W: Write, D: Disk>(
    alloc: Global,
    reader: &mut R,
    writer: &mut W,
    disk: &mut D,
    table: TableChoice,
    audit: AuditShowing<'_>,
    path: &str,
    notes: &mut Notes,
) -> Status
    ensures { IfSome (R.remaining reader.old) (λ text.
        EndsNamed (entries_for table text) audit.entry text (D.texts disk.old path.now)
        (outputs (W.contents writer.old) (D.puts disk.old)) (outputs (W.contents writer.new) (D.puts disk.new)) result) }
{
    let octets = match octets_at(alloc, disk, path) {
        Ok(octets) => octets,
        Err(fault) => return stop(alloc, fault, notes),
    };
    match text_of(octets.as_slice()) {
        Ok(text) => {
            let audit = AuditShowing {
                scope: audit.scope,
                asked: audit.asked,
                scenario: Some(text),
                folder: audit.folder,
            };
            audit_run(alloc, reader, writer, disk, table, audit, notes)
        }
        Err(fault) => stop(alloc, fault, notes),
    }
}

/// Does what is chosen: answers the lines of a text as one node, runs the scenario that it means, alone or in threads, audits the
/// transcript that it is, or says of the scenario that it means whether it certifies delivery in any order. The scenario whose names an audit takes is read from a file before the transcript is. `notes` then has what more there is to say, where that is asked for.
#[tactic(auto, using(hsr_files::proofs::Puts::none_put))]
pub fn perform<H: Threads + Wait + Sync, R: Read, W: Write, D: Disk>(
    rt: &H,
    alloc: Global,
    reader: &mut R,
    writer: &mut W,
    disk: &mut D,
    chosen: &Options<'_>,
    notes: &mut Notes,
) -> Status
    ensures { IfSome (R.remaining reader.old) (λ text.
        Performs chosen.now text (D.texts disk.old) (outputs (W.contents writer.old) (D.puts disk.old))
        (outputs (W.contents writer.new) (D.puts disk.new)) result) }
{
    match chosen {
        Options::Node(node) => node_run(alloc, reader, writer, node),
        Options::Run {
            table,
            showing,
            folder,
            shows_open,
            ..
        } => scenario_run(
            alloc,
            reader,
            writer,
            disk,
            *table,
            *showing,
            *folder,
            *shows_open,
            notes,
        ),
        Options::Threads {
            table,
            showing,
            folder,
            ..
        } => threads_run(
            rt, alloc, reader, writer, disk, *table, *showing, *folder, notes,
        ),
        Options::Audit {
            table,
            scope,
            asked,
            scenario,
            folder,
            ..
        } => {
            let audit = AuditShowing {
                scope: *scope,
                asked: *asked,
                scenario: None,
                folder: *folder,
            };
            match scenario {
                None => audit_run(alloc, reader, writer, disk, *table, audit, notes),
                Some(path) => {
                    audit_named(alloc, reader, writer, disk, *table, audit, path, notes)
                }
            }
        }
        Options::Certify {
            table,
            within,
            is_coarse,
        } => {
            let question = Question {
                table: *table,
                within: *within,
                is_coarse: *is_coarse,
            };
            certify_run(alloc, reader, writer, question)
        }
    }
}
