//! Scenarios that are run, and shown by transcript or report.
ghost use Rattle.std.specs.Prelude.{◌≡◌, ◌≢◌, IfErr, IfOk, IfSome, true};
ghost use Rattle.hsr_duptable.specs.Table.{IsTableSize};
ghost use Rattle.hsr_commands.specs.Naming.{names_in};
ghost use Rattle.hsr_commands.specs.Reading.{scenario_of};
ghost use Rattle.hsr_commands.specs.Shown.{outputs, text_if};
ghost use Rattle.hsr_commands.specs.OpenRun.{IsLeftBy, IsOpenOf, IsOpenShown, IsPlayedOn, IsShownBy, IsShownOfRun, IsUnshown, IsWrittenOpen, RunEnds};
ghost use Rattle.hsr_commands.specs.ScenarioRun.{IsUnplayed};
ghost use Rattle.hsr_table_size.specs.Sizes.{capacity_of};
ghost use Rattle.hsr_commands.specs.declared.fault.Fault.TheVariants.{Memory, Read as ReadFailed};
ghost use Rattle.hsr_commands.specs.declared.fault.Status.TheVariants.{Fault as Stopped};

use crate::fault::{Fault, Status};
use crate::left::open_text;
use crate::naming::node_naming;
use crate::notes::Notes;
use crate::reading::scenario_of;
use crate::shown::{ShownRun, asks_budget, audit_and_show, deliver, leave};
use crate::text::read_text;
use hsr_files::Disk;
use hsr_finished_run::{CheckFault, Closed};
use hsr_node::Place;
use hsr_options::Showing;
use hsr_ring::{World, play};
use hsr_scenario::TEXT_LIMIT;
use hsr_table_size::{TableSize, at_size};
use hsr_topology::Topology;
use std::alloc::Global;
use std::io::{Read, Write};

/// A scenario that was played: the world to which it leads, and its nodes and links.
#[derive(Drop)]
struct Reached<const C: usize> {
    world: World<C>,
    topology: Topology,
}

/// What there is of a run: what is shown of it; or the text of one that can't be closed.
#[derive(Drop)]
enum Shown {
    Closed { shown: ShownRun },
    Open { text: Vec<u8> },
}

/// The world to which the scenario of a text leads.
fn played<const C: usize>(
    alloc: Global,
    octets: &[u8],
    notes: &mut Notes,
) -> Result<Reached<C>, Fault>
    requires entries { IsTableSize C }
    ensures ok { IfOk result (λ p. IsPlayedOn C
        (scenario_of octets.now) p.topology.places p.world) }
    ensures err { IfErr result (λ f. IsUnplayed C (scenario_of octets.now) f) }
{
    let scenario = match scenario_of(alloc, octets) {
        Ok(scenario) => scenario,
        Err(fault) => return Err(fault),
    };
    // A copy, since the world takes the topology, and what stays open is shown by its nodes.
    let Ok(topology) = scenario.topology.copy() else {
        return Err(Fault::Memory);
    };
    let Ok(mut world) = World::<C>::new(alloc, scenario.topology, scenario.capacity) else {
        return Err(Fault::Memory);
    };
    match play(&mut world, scenario.steps.as_slice()) {
        Ok(()) => {
            leave(scenario.steps);
            Ok(Reached { world, topology })
        }
        Err((step, fault)) => {
            notes.of_order(alloc, octets, step, &fault, &world);
            Err(Fault::of_step(step, fault))
        }
    }
}

/// Audits a finished run, and forms what is shown of it.
fn finished<const C: usize>(
    alloc: Global,
    octets: &[u8],
    closed: &Closed<C>,
    showing: Showing,
    folder: Option<&str>,
    notes: &mut Notes,
) -> Result<Shown, Fault>
    ensures ok { IfOk result (IsShownOfRun showing (text_if folder.entry) (names_in octets.now)
        closed.now) }
    ensures err { IfErr result (λ f. f ≡ Memory) }
{
    match audit_and_show(alloc, octets, closed, showing, folder) {
        Ok(shown) => {
            notes.of_run(alloc, octets, closed, shown.finding, asks_budget(showing));
            Ok(Shown::Closed { shown })
        }
        Err(fault) => Err(fault),
    }
}

/// What there is of a world of these nodes that can't be closed; with the names that octets have, where names are asked for.
fn shown_open<const C: usize>(
    alloc: Global,
    octets: &[u8],
    world: &World<C>,
    places: &[Place],
    names: bool,
) -> Result<Shown, Fault>
    ensures ok { IfOk result (IsOpenShown C names (names_in octets.now) places.now world.now) }
    ensures err { IfErr result (λ f. f ≡ Memory) }
{
    let naming = match node_naming(alloc, octets, names) {
        Ok(naming) => naming,
        Err(fault) => return Err(fault),
    };
    match open_text(alloc, &naming, world, places) {
        Ok(text) => Ok(Shown::Open { text }),
        Err(_) => Err(Fault::Memory),
    }
}

/// What there is of a world of these nodes that can't be closed for this reason, where that is to be shown.
fn left_open<const C: usize>(
    alloc: Global,
    octets: &[u8],
    world: &World<C>,
    places: &[Place],
    names: bool,
    shows_open: bool,
    fault: CheckFault,
) -> Result<Shown, Fault>
    ensures ok { IfOk result (λ shown. (shows_open ≡ true)
        × IsOpenOf C names (names_in octets.now) places.now world.now fault shown) }
    ensures err { IfErr result (IsLeftBy shows_open fault) }
{
    match fault {
        // A failed allocation is no open run.
        CheckFault::Disagree(_) if shows_open => shown_open(alloc, octets, world, places, names),
        fault => Err(Fault::of_check(fault)),
    }
}

/// Plays the scenario that octets mean, closes and audits its world, and forms what is shown of it.
#[tactic(auto, using(crate::proofs::Opening::shown_closed, crate::proofs::Opening::shown_open, crate::proofs::Opening::unshown_unplayed, crate::proofs::Opening::unshown_short, crate::proofs::Opening::unshown_left))]
fn reported<const C: usize>(
    alloc: Global,
    octets: &[u8],
    showing: Showing,
    folder: Option<&str>,
    shows_open: bool,
    notes: &mut Notes,
) -> Result<Shown, Fault>
    requires entries { IsTableSize C }
    ensures ok { IfOk result (IsShownBy C shows_open showing (text_if folder.entry)
        (scenario_of octets.now) (names_in octets.now)) }
    ensures err { IfErr result (IsUnshown C shows_open (scenario_of octets.now)) }
{
    let reached = match played::<C>(alloc, octets, notes) {
        Ok(reached) => reached,
        Err(fault) => return Err(fault),
    };
    match reached.world.close() {
        Ok(closed) => {
            let shown = finished(alloc, octets, &closed, showing, folder, notes);
            leave(closed);
            shown
        }
        Err((world, fault)) => {
            let places = reached.topology.places();
            left_open(
                alloc,
                octets,
                &world,
                places,
                showing.names,
                shows_open,
                fault,
            )
        }
    }
}

/// What is shown of the scenario that octets mean, with tables of the chosen size.
fn reported_with(
    alloc: Global,
    octets: &[u8],
    table: TableSize,
    showing: Showing,
    folder: Option<&str>,
    shows_open: bool,
    notes: &mut Notes,
) -> Result<Shown, Fault>
    ensures ok { IfOk result (IsShownBy (capacity_of table) shows_open showing
        (text_if folder.entry) (scenario_of octets.now) (names_in octets.now)) }
    ensures err { IfErr result (IsUnshown (capacity_of table) shows_open (scenario_of octets.now)) }
{
    at_size!(table => reported[](alloc, octets, showing, folder, shows_open, notes))
}

/// Writes what there is of a run that can't be closed. It doesn't flush.
fn deliver_open<W: Write>(writer: &mut W, text: &[u8]) -> Status
    ensures { IsWrittenOpen (W.contents writer.old) (W.contents writer.new) text.now result }
{
    // What was written is flushed in one place, `bench`.
    match writer.write_all(text) {
        Ok(()) => Status::Open,
        Err(_) => Status::Fault(Fault::Write),
    }
}

/// Runs the scenario that octets mean, and writes what is shown of it.
#[tactic(auto, using(crate::proofs::Opening::closed_told, crate::proofs::Opening::open_told, crate::proofs::Opening::unshown_told, crate::proofs::Opening::unshown_known, crate::proofs::Opening::open_known, crate::proofs::Telling::delivered_told))]
fn run_and_deliver<W: Write, D: Disk>(
    alloc: Global,
    octets: &[u8],
    writer: &mut W,
    disk: &mut D,
    table: TableSize,
    showing: Showing,
    folder: Option<&str>,
    shows_open: bool,
    notes: &mut Notes,
) -> Status
    ensures shown { RunEnds (capacity_of table) shows_open showing (text_if folder.entry)
        (scenario_of octets.now) (names_in octets.now)
        (outputs (W.contents writer.old) (D.puts disk.old))
        (outputs (W.contents writer.new) (D.puts disk.new)) result }
    ensures told { result ≢ Stopped ReadFailed }
{
    match reported_with(alloc, octets, table, showing, folder, shows_open, notes) {
        Ok(Shown::Closed { shown }) => deliver(alloc, writer, disk, folder, &shown, notes),
        Ok(Shown::Open { text }) => deliver_open(writer, text.as_slice()),
        Err(fault) => {
            notes.of_fault(alloc, octets, &fault);
            Status::Fault(fault)
        }
    }
}

/// Runs the scenario that a text means, with tables of the chosen size, and writes its transcript, where that is asked for,
/// or its report: the nodes with their counters, the links with what became of their copies, the parts that are asked for, of a
/// network what it tells of ports on rings without a link and of sends that no node is for, and what the chosen audit found, which
/// the status tells in both cases. Where a folder is given, the run's tables are put there, before the text is written: of `Fault::Tables`,
/// where one can't be put, the text isn't written, and the tables before it are there. The scenario has at most 16 MiB, and a drain takes
/// at most 1,000,000 steps. Text and tables are formed whole before they are written, so that after other faults nothing is, but for
/// `Fault::Write`. `Fault::Read` where the reader fails or takes over 2^40 reads, `Fault::Memory` if allocation fails. A run that can't be
/// closed is `Fault::Check`, or, where `shows_open` asks for it, `Status::Open`: then the lines of its nodes and links are written as they
/// stand, and it has no tables. Where it is asked for, `notes` then has what a fault or a doubt means.
pub fn scenario_run<R: Read, W: Write, D: Disk>(
    alloc: Global,
    reader: &mut R,
    writer: &mut W,
    disk: &mut D,
    table: TableSize,
    showing: Showing,
    folder: Option<&str>,
    shows_open: bool,
    notes: &mut Notes,
) -> Status
    ensures { IfSome (R.remaining reader.old) (λ octets.
        RunEnds (capacity_of table) shows_open showing (text_if folder.entry) (scenario_of octets) (names_in octets)
        (outputs (W.contents writer.old) (D.puts disk.old)) (outputs (W.contents writer.new) (D.puts disk.new)) result) }
{
    match read_text(alloc, reader, TEXT_LIMIT) {
        Ok(octets) => run_and_deliver(
            alloc,
            octets.as_slice(),
            writer,
            disk,
            table,
            showing,
            folder,
            shows_open,
            notes,
        ),
        Err(fault) => Status::Fault(fault),
    }
}
