//! Scenarios that run in threads, and are shown by transcript or report.
ghost use Rattle.std.specs.Prelude.{◌≡◌, ◌≢◌, IfErr, IfOk, IfSome};
ghost use Rattle.hsr_duptable.specs.Table.{IsTableSize};
ghost use Rattle.hsr_commands.specs.Naming.{names_in};
ghost use Rattle.hsr_commands.specs.Reading.{scenario_of};
ghost use Rattle.hsr_commands.specs.Shown.{outputs, text_if};
ghost use Rattle.hsr_table_size.specs.Sizes.{capacity_of};
ghost use Rattle.hsr_commands.specs.ThreadsRun.{IsRan, IsRunShown, IsUnrun, ThreadsEnds, run_fault};
ghost use Rattle.hsr_commands.specs.declared.fault.Fault.TheVariants.{Read as ReadFailed};
ghost use Rattle.hsr_commands.specs.declared.fault.Status.TheVariants.{Fault as Stopped};

use crate::fault::{Fault, Status};
use crate::notes::Notes;
use crate::reading::scenario_of;
use crate::shown::{ShownRun, asks_budget, audit_and_show, deliver, leave};
use crate::text::read_text;
use hsr_files::Disk;
use hsr_finished_run::Closed;
use hsr_options::Showing;
use hsr_runner::{OpenGate, RunFault, run_threads};
use hsr_scenario::TEXT_LIMIT;
use hsr_table_size::{TableSize, at_size};
use hsr_world_steps::DrainFault;
use std::alloc::Global;
use std::io::{Read, Write};
use std::marker::Sync;
use std::sync::Wait;
use std::thread::Threads;

/// Why there is no finished run, as a fault of the run.
fn run_fault(fault: RunFault) -> Fault
    ensures { result ≡ run_fault fault }
{
    match fault {
        RunFault::FineStep { step } => Fault::Fine { step },
        RunFault::Step { step, fault } => Fault::of_step(step, DrainFault::World(fault)),
        RunFault::GateShut => Fault::Gate,
        RunFault::Thread => Fault::Thread,
        RunFault::Check(disagree) => Fault::Check(disagree),
        RunFault::NoMemory => Fault::Memory,
    }
}

/// A finished run in threads of the scenario that octets mean.
fn ran<H: Threads + Wait + Sync, const C: usize>(
    rt: &H,
    alloc: Global,
    octets: &[u8],
) -> Result<Closed<C>, Fault>
    requires entries { IsTableSize C }
    ensures ok { IfOk result (λ c. IsRan C (scenario_of octets.now) c) }
    ensures err { IfErr result (λ f. IsUnrun C (scenario_of octets.now) f) }
{
    let scenario = match scenario_of(alloc, octets) {
        Ok(scenario) => scenario,
        Err(fault) => return Err(fault),
    };
    // A gate is for tests: here nothing holds threads back.
    match run_threads::<C, OpenGate, H>(rt, alloc, &scenario, &OpenGate) {
        Ok(closed) => Ok(closed),
        Err(fault) => Err(run_fault(fault)),
    }
}

/// Runs the scenario that octets mean, and forms what is shown of the run.
fn run_shown<H: Threads + Wait + Sync, const C: usize>(
    rt: &H,
    alloc: Global,
    octets: &[u8],
    showing: Showing,
    folder: Option<&str>,
    notes: &mut Notes,
) -> Result<ShownRun, Fault>
    requires entries { IsTableSize C }
    ensures ok { IfOk result (IsRunShown C showing (text_if folder.entry) (scenario_of octets.now)
        (names_in octets.now)) }
    ensures err { IfErr result (λ f. IsUnrun C (scenario_of octets.now) f) }
{
    let closed = match ran::<H, C>(rt, alloc, octets) {
        Ok(closed) => closed,
        Err(fault) => return Err(fault),
    };
    match audit_and_show(alloc, octets, &closed, showing, folder) {
        Ok(shown) => {
            notes.of_run(alloc, octets, &closed, shown.finding, asks_budget(showing));
            leave(closed);
            Ok(shown)
        }
        Err(fault) => Err(fault),
    }
}

/// What is shown of a run of the scenario that octets mean, with tables of the chosen size.
fn run_shown_with<H: Threads + Wait + Sync>(
    rt: &H,
    alloc: Global,
    octets: &[u8],
    table: TableSize,
    showing: Showing,
    folder: Option<&str>,
    notes: &mut Notes,
) -> Result<ShownRun, Fault>
    ensures ok { IfOk result (IsRunShown (capacity_of table) showing (text_if folder.entry)
        (scenario_of octets.now) (names_in octets.now)) }
    ensures err { IfErr result (λ f. IsUnrun (capacity_of table) (scenario_of octets.now) f) }
{
    at_size!(table => run_shown[H](rt, alloc, octets, showing, folder, notes))
}

/// Runs the scenario that octets mean, and writes what is shown of the run.
#[tactic(auto, using(crate::proofs::Telling::told_run, crate::proofs::Telling::told_unrun, crate::proofs::Telling::unrun_told, crate::proofs::Telling::delivered_told))]
fn run_and_deliver<H: Threads + Wait + Sync, W: Write, D: Disk>(
    rt: &H,
    alloc: Global,
    octets: &[u8],
    writer: &mut W,
    disk: &mut D,
    table: TableSize,
    showing: Showing,
    folder: Option<&str>,
    notes: &mut Notes,
) -> Status
    ensures shown { ThreadsEnds (capacity_of table) showing (text_if folder.entry)
        (scenario_of octets.now) (names_in octets.now)
        (outputs (W.contents writer.old) (D.puts disk.old))
        (outputs (W.contents writer.new) (D.puts disk.new)) result }
    ensures told { result ≢ Stopped ReadFailed }
{
    match run_shown_with(rt, alloc, octets, table, showing, folder, notes) {
        Ok(shown) => deliver(alloc, writer, disk, folder, &shown, notes),
        Err(fault) => {
            notes.of_fault(alloc, octets, &fault);
            Status::Fault(fault)
        }
    }
}

/// Runs the scenario that a text means in threads, with tables of the chosen size, and writes the transcript of that run, where it
/// is asked for, or its report, and its tables, as `scenario_run` does; the status tells what the audit of that run found. Each linked port has a
/// thread that takes, judges and puts, and each node one that ages it after a step `clock`, so what comes first is left to them.
///
/// The scenario has at most 16 MiB. Text and tables are formed whole before they are written, so that after a fault nothing is, but for
/// `Fault::Write` and `Fault::Tables`. `Fault::Fine` where the scenario has a step `put`, `take` or `judge`, of which the first is named; nothing is started
/// then. `Fault::Thread` where a thread can't be started, `Fault::Read` where the reader fails or takes over 2^40 reads,
/// `Fault::Memory` if allocation fails. No gate shuts, so `Fault::Gate` doesn't come. It waits for its threads. Where it is
/// asked for, `notes` then has what a fault or a doubt means.
pub fn threads_run<H: Threads + Wait + Sync, R: Read, W: Write, D: Disk>(
    rt: &H,
    alloc: Global,
    reader: &mut R,
    writer: &mut W,
    disk: &mut D,
    table: TableSize,
    showing: Showing,
    folder: Option<&str>,
    notes: &mut Notes,
) -> Status
    ensures { IfSome (R.remaining reader.old) (λ octets.
        ThreadsEnds (capacity_of table) showing (text_if folder.entry) (scenario_of octets) (names_in octets)
        (outputs (W.contents writer.old) (D.puts disk.old)) (outputs (W.contents writer.new) (D.puts disk.new)) result) }
{
    match read_text(alloc, reader, TEXT_LIMIT) {
        Ok(octets) => run_and_deliver(
            rt,
            alloc,
            octets.as_slice(),
            writer,
            disk,
            table,
            showing,
            folder,
            notes,
        ),
        Err(fault) => Status::Fault(fault),
    }
}
