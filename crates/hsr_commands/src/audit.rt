//! Transcripts that are read and audited.
ghost use Rattle.std.specs.Prelude.{◌≡◌, ◌⊎◌, ◌++◌, IfErr, IfOk, IfSome, OnOk};
ghost use Rattle.hsr_duptable.specs.Table.{IsTableSize};
ghost use Rattle.hsr_transcript.specs.Answers.{IsTextOf};
ghost use Rattle.hsr_commands.specs.AuditRun.{AuditEnds, IsAuditOf, IsAudited, IsUnread, entries_for, transcript_fault};
ghost use Rattle.hsr_commands.specs.Naming.{IsMisnamed};
ghost use Rattle.hsr_commands.specs.Shown.{AreTablesIf, outputs, text_if};
ghost use Rattle.hsr_finished_run.specs.Finished.{IsFinished};
ghost use Rattle.hsr_report.specs.Found.{IsFound, IsReportOf};
ghost use Rattle.hsr_commands.specs.declared.fault.Fault.TheVariants.{Memory, Read as ReadFailed};
ghost use Rattle.hsr_head.specs.Reads.{front};
ghost use Rattle.hsr_head.specs.Told.{told_size};
ghost use Rattle.hsr_table_size.specs.Sizes.{capacity_of};

use crate::fault::{Fault, Status, TranscriptFault};
use crate::naming::naming_by;
use crate::notes::Notes;
use crate::shown::{ShownRun, deliver, finding_of, leave, report_of, tables_if};
use hsr_files::Disk;
use hsr_finished_run::Closed;
use hsr_head::{front, read_head, told_size};
use hsr_naming::Naming;
use hsr_options::{Asked, Scope, TableChoice};
use hsr_report::Finding;
use hsr_table_size::{TableSize, at_size};
use hsr_text::InputFault;
use hsr_transcript::{ReadFault, read};
use std::alloc::Global;
use std::io::{Read, Write};

/// What is shown of the run of a transcript: which audit its last line and the status are of, which parts its report has, and the text of the
/// scenario whose names are in it; and the folder into which its tables are put. Without a scenario it has numbers, and without a folder
/// there are no tables.
#[derive(Clone, Copy, PartialEq, Eq)]
pub struct AuditShowing<'a> {
    pub scope: Scope,
    pub asked: Asked,
    pub scenario: Option<&'a str>,
    pub folder: Option<&'a str>,
}

/// Why a text isn't read, as a fault of the run.
fn transcript_fault(fault: ReadFault) -> Fault
    ensures { result ≡ transcript_fault fault }
{
    match fault {
        ReadFault::Version => Fault::Transcript(TranscriptFault::Version),
        ReadFault::BadLine { number } => Fault::Transcript(TranscriptFault::Line(number)),
        ReadFault::End => Fault::Transcript(TranscriptFault::End),
        ReadFault::Disagrees(cause) => Fault::Check(cause),
        ReadFault::Read => Fault::Read,
        ReadFault::NoMemory => Fault::Memory,
    }
}

/// The finished run whose transcript a text is.
#[tactic(auto, using(crate::proofs::Telling::unread_as))]
fn closed<R: Read, const C: usize>(
    alloc: Global,
    reader: &mut R,
    audit: AuditShowing<'_>,
) -> Result<Closed<C>, Fault>
    requires entries { IsTableSize C }
    ensures ok { IfOk result (λ c. IfSome (R.remaining reader.old) (λ text. IsTextOf C c text)) }
    ensures err { IfErr result (λ f. IfSome (R.remaining reader.old)
        (λ text. IsUnread C audit.entry text f)) }
{
    match read(alloc, reader) {
        Ok(closed) => Ok(closed),
        Err(fault) => Err(transcript_fault(fault)),
    }
}

/// The report and the tables of a finished run, by one naming.
fn audited_by<const C: usize>(
    alloc: Global,
    closed: &Closed<C>,
    naming: &Naming,
    audit: AuditShowing<'_>,
) -> Result<ShownRun, Fault>
    ensures found { IfOk result (λ shown. IsFound audit.entry.scope closed.now.run shown.finding) }
    ensures report { IfOk result (λ shown. IsReportOf naming.now audit.entry.scope audit.entry.asked
        closed.now.run shown.finding shown.text.items) }
    ensures tables { IfOk result (λ shown. AreTablesIf (text_if audit.entry.folder) naming.now audit.entry.scope
        closed.now.run shown.finding shown.tables) }
    ensures finished { OnOk result (IsFinished closed.now) }
    ensures err { IfErr result (λ f. f ≡ Memory) }
{
    // A `match` and no `?`, which gets no proof where a clause says which fault comes first.
    let finding = match finding_of(alloc, closed, audit.scope) {
        Ok(finding) => finding,
        Err(fault) => return Err(fault),
    };
    let text = match report_of(alloc, closed, naming, audit.scope, finding, audit.asked) {
        Ok(text) => text,
        Err(fault) => return Err(fault),
    };
    match tables_if(alloc, closed, naming, audit.scope, finding, audit.folder) {
        Ok(tables) => Ok(ShownRun {
            finding,
            text,
            tables,
        }),
        Err(fault) => Err(fault),
    }
}

/// What is shown of a finished run.
fn audit_of<const C: usize>(
    alloc: Global,
    closed: &Closed<C>,
    audit: AuditShowing<'_>,
) -> Result<ShownRun, Fault>
    ensures ok { IfOk result (IsAuditOf audit.entry closed.now) }
    ensures finished { OnOk result (IsFinished closed.now) }
    ensures err { IfErr result (IsMisnamed (text_if audit.entry.scenario) closed.now.run) }
{
    match naming_by(alloc, closed, audit.scenario) {
        Ok(naming) => match audited_by(alloc, closed, &naming, audit) {
            Ok(shown) => Ok(shown),
            Err(fault) => Err(fault),
        },
        Err(fault) => Err(fault),
    }
}

/// The octets of the scenario whose names are used; none without it.
fn octets_of<'a>(scenario: Option<&'a str>) -> &'a [u8] {
    match scenario {
        Some(text) => text.as_bytes(),
        None => &[],
    }
}

/// Reads a transcript, audits its run, and forms what is shown of it.
#[tactic(auto, using(crate::proofs::Telling::uncalled, crate::proofs::Telling::audited_run))]
fn audited<R: Read, const C: usize>(
    alloc: Global,
    reader: &mut R,
    audit: AuditShowing<'_>,
    notes: &mut Notes,
) -> Result<ShownRun, Fault>
    requires entries { IsTableSize C }
    ensures ok { IfOk result (λ shown. IfSome (R.remaining reader.old)
        (λ text. IsAudited C audit.entry text shown)) }
    ensures err { IfErr result (λ f. IfSome (R.remaining reader.old)
        (λ text. IsUnread C audit.entry text f)) }
{
    let closed = match closed::<R, C>(alloc, reader, audit) {
        Ok(closed) => closed,
        Err(fault) => return Err(fault),
    };
    match audit_of(alloc, &closed, audit) {
        Ok(shown) => {
            // A transcript has no names: those of the scenario are used, if there is one.
            let octets = octets_of(audit.scenario);
            notes.of_run(alloc, octets, &closed, shown.finding, audit.asked.budget);
            leave(closed);
            Ok(shown)
        }
        Err(fault) => Err(fault),
    }
}

/// What is shown of the transcript that a reader gives, with tables of the chosen size.
fn audited_with<R: Read>(
    alloc: Global,
    reader: &mut R,
    table: TableSize,
    audit: AuditShowing<'_>,
    notes: &mut Notes,
) -> Result<ShownRun, Fault>
    ensures ok { IfOk result (λ shown. IfSome (R.remaining reader.old)
        (λ text. IsAudited (capacity_of table) audit.entry text shown)) }
    ensures err { IfErr result (λ f. IfSome (R.remaining reader.old)
        (λ text. IsUnread (capacity_of table) audit.entry text f)) }
{
    at_size!(table => audited[R](alloc, reader, audit, notes))
}

/// What is shown of the transcript that a head and what follows are, with tables of the chosen size.
fn audited_behind<R: Read>(
    alloc: Global,
    head: &[u8],
    reader: &mut R,
    table: TableSize,
    audit: AuditShowing<'_>,
    notes: &mut Notes,
) -> Result<ShownRun, Fault>
    ensures ok { IfOk result (λ shown. IfSome (R.remaining reader.old)
        (λ rest. IsAudited (capacity_of table) audit.entry (head.now ++ rest) shown)) }
    ensures err { IfErr result (λ f. IfSome (R.remaining reader.old)
        (λ rest. IsUnread (capacity_of table) audit.entry (head.now ++ rest) f)) }
{
    // The head was read before, so it is put in front of the rest again.
    let mut whole = head.chain(reader);
    audited_with(alloc, &mut whole, table, audit, notes)
}

/// Why a head isn't read, as a fault of the run.
fn head_fault(fault: InputFault) -> Fault
    ensures { (result ≡ ReadFailed) ⊎ (result ≡ Memory) }
{
    match fault {
        InputFault::Read => Fault::Read,
        InputFault::Memory => Fault::Memory,
    }
}

/// What is shown of the transcript that a reader gives, with tables of the size of which it tells.
#[tactic(auto, using(crate::proofs::Telling::head_unread))]
fn audited_as_told<R: Read>(
    alloc: Global,
    reader: &mut R,
    audit: AuditShowing<'_>,
    notes: &mut Notes,
) -> Result<ShownRun, Fault>
    ensures ok { IfOk result (λ shown. IfSome (R.remaining reader.old)
        (λ text. IsAudited (capacity_of (told_size (front text))) audit.entry text shown)) }
    ensures err { IfErr result (λ f. IfSome (R.remaining reader.old)
        (λ text. IsUnread (capacity_of (told_size (front text))) audit.entry text f)) }
{
    let head = match read_head(alloc, reader) {
        Ok(head) => head,
        Err(fault) => return Err(head_fault(fault)),
    };
    let text = head.as_slice();
    audited_behind(alloc, text, reader, told_size(front(text)), audit, notes)
}

/// What is shown of the transcript that a reader gives, with tables of the size that is chosen for it.
fn audited_for<R: Read>(
    alloc: Global,
    reader: &mut R,
    choice: TableChoice,
    audit: AuditShowing<'_>,
    notes: &mut Notes,
) -> Result<ShownRun, Fault>
    ensures ok { IfOk result (λ shown. IfSome (R.remaining reader.old)
        (λ text. IsAudited (entries_for choice text) audit.entry text shown)) }
    ensures err { IfErr result (λ f. IfSome (R.remaining reader.old)
        (λ text. IsUnread (entries_for choice text) audit.entry text f)) }
{
    match choice {
        // Behind an empty head, so that the text is read by the same functions in both cases.
        TableChoice::Given(table) => audited_behind(alloc, b"", reader, table, audit, notes),
        TableChoice::Told => audited_as_told(alloc, reader, audit, notes),
    }
}

/// Reads a transcript of a run with tables of the size that is chosen, or that it tells, audits the run, and writes its report: the nodes with their
/// counters, the links with what became of their copies, the parts that are asked for, of a network what it tells of ports on rings
/// without a link and of sends that no node is for, and what the chosen audit found, which the status tells too. Where a folder is given,
/// the run's tables are put there before: of `Fault::Tables`, where one can't be put, no report is written, and the tables before it are
/// there. Report and tables are formed whole before they are written. `Fault::Transcript` where the text is no run's, and `Fault::Check`
/// where links and records of its run disagree; `Fault::Names` where a scenario is given that isn't one of that run; `Fault::Read` where the
/// reader fails or takes over 2^40 reads, `Fault::Memory` if allocation fails: then nothing is written. Where it is asked for, `notes` then
/// has what a fault or a doubt means.
#[tactic(auto, using(crate::proofs::Telling::audited_known, crate::proofs::Telling::unread_known))]
pub fn audit_run<R: Read, W: Write, D: Disk>(
    alloc: Global,
    reader: &mut R,
    writer: &mut W,
    disk: &mut D,
    choice: TableChoice,
    audit: AuditShowing<'_>,
    notes: &mut Notes,
) -> Status
    ensures { IfSome (R.remaining reader.old) (λ text.
        AuditEnds (entries_for choice text) audit.entry text
        (outputs (W.contents writer.old) (D.puts disk.old)) (outputs (W.contents writer.new) (D.puts disk.new)) result) }
{
    match audited_for(alloc, reader, choice, audit, notes) {
        Ok(shown) => deliver(alloc, writer, disk, audit.folder, &shown, notes),
        Err(fault) => {
            notes.of_fault(alloc, &[], &fault);
            Status::Fault(fault)
        }
    }
}
