//! What is shown of a transcript.
ghost use Rattle.std.specs.Prelude.{◌≡◌, ◌⊎◌, ◌++◌, ◌∷◌, [], Err, None, IfErr, IfOk, IfSome, OnOk, option_map};
ghost use Rattle.hsr_duptable.specs.Table.{IsTableSize};
ghost use Rattle.hsr_timeline.specs.Fronts.{lists_of};
ghost use Rattle.hsr_table_size.specs.Sizes.{capacity_of};
ghost use Rattle.hsr_transcript.specs.Answers.{Answers, IsTextOf};
ghost use Rattle.hsr_view.specs.Fault.{nothing_fault, fault_of_read, picture_fault};
ghost use Rattle.hsr_given.specs.Given.{given_of};
ghost use Rattle.hsr_head.specs.Reads.{front};
ghost use Rattle.hsr_head.specs.Told.{told_size};
ghost use Rattle.hsr_view.specs.Refusals.{HasStray, IsMisnamed, IsStray, IsUncaptured, IsUnpicturedIn, IsUnshown, IsUnshownOf, IsUnshownWith, TellsNothing};
ghost use Rattle.hsr_view.specs.Viewing.{AreNames, AreSends, IsCaptureOf, IsPictured, IsSend, IsShown, IsShownOf, leaves_none, probe_of};
ghost use Rattle.hsr_view.specs.declared.fault.Fault.TheVariants.{Memory, Send};

use crate::agreeing::{is_memory, steps_of};
use crate::fault::{Extent, Fault, Moments, fault_of_read};
use crate::paging::page_of;
use crate::views::What;
use hsr_capture::capture;
use hsr_devices::devices;
use hsr_diagram::{COPY_LIMIT, Span, picture_run};
use hsr_diagram_layout::drawing;
use hsr_downs::{downs, switches};
use hsr_finished_run::Closed;
use hsr_frame::NoMemory;
use hsr_given::{given_of, other, unread};
use hsr_head::{front, told_size};
use hsr_node::Probe;
use hsr_scenario::read_names;
use hsr_table_size::{TableSize, at_size};
use hsr_timeline::{Choice, Shown, StoryFault, check_choice, chosen, node_called, story};
use hsr_topology::{Topology, is_same_topology};
use hsr_transcript::{ReadFault, read};
use std::alloc::Global;
use std::io::Read;

/// The names of the nodes of a run, by the scenario from which it came; none without it. `Names` exactly where its
/// names can't be read, or it has other nodes or links, with what it is.
fn names_of(
    alloc: Global,
    topology: &Topology,
    scenario: Option<&str>,
) -> Result<Vec<Vec<u8>>, Fault>
    ensures names { IfOk result (λ names.
        AreNames topology.now (option_map (λ s. s.now) scenario.entry) (lists_of names.items)) }
    ensures misnamed { IfErr result (IsMisnamed topology.now
        (option_map (λ s. s.now) scenario.entry)) }
{
    let Some(text) = scenario else {
        return Ok(Vec::new(alloc));
    };
    match read_names(alloc, text) {
        Ok(named) => {
            if is_same_topology(&named.topology, topology) {
                Ok(named.names)
            } else {
                Err(Fault::Names(other(text.as_bytes())))
            }
        }
        Err(fault) => {
            if is_memory(fault.what) {
                Err(Fault::Memory)
            } else {
                Err(Fault::Names(unread(text.as_bytes())))
            }
        }
    }
}

/// Why nothing is shown of these rows of a run, in the order of time.
fn nothing_of(rows: &[Shown]) -> Fault
    ensures { result ≡ nothing_fault rows.now }
{
    match (rows.first(), rows.last()) {
        (Some(first), Some(last)) => Fault::NoneAsked {
            extent: Extent {
                copies: rows.len(),
                moments: Moments {
                    first: first.moment,
                    last: last.moment,
                },
            },
        },
        _ => Fault::NoCopies,
    }
}

/// Whether something is wanted, and no row is left.
fn leaves_none(wanted: Choice, rows: &[Shown]) -> bool
    ensures { result ≡ leaves_none wanted rows.now }
{
    (wanted.link.is_some() || wanted.send.is_some()) && rows.is_empty()
}

/// The capture of those rows of a run that are wanted, in the order of time: `Link` or `Send` where the run hasn't what
/// is wanted, `Circle` where its rows have no order of time, `NoCopies` or `NoneAsked` where something is wanted and no
/// row is left, `TooLong` where a block would be too long.
fn capture_of<const C: usize>(
    alloc: Global,
    closed: &Closed<C>,
    names: &[Vec<u8>],
    wanted: Choice,
) -> Result<Vec<u8>, Fault>
    ensures capture { IfOk result (λ octets.
        IsCaptureOf (lists_of names.now) closed.now wanted octets.items) }
    ensures missing { IfErr result (IsUncaptured (lists_of names.now) closed.now wanted) }
{
    check_choice(closed, wanted)?;
    let rows = story(alloc, closed)?;
    let left = chosen(alloc, closed, wanted, rows.as_slice())?;
    // An empty capture would look like a quiet link.
    if leaves_none(wanted, left.as_slice()) {
        return Err(nothing_of(rows.as_slice()));
    }
    let octets = capture(alloc, closed, names, left.as_slice())?;
    Ok(octets)
}

/// The send that a node's name and a place mean; `Send` where no node has the name.
fn probe_of(names: &[Vec<u8>], send: &(&str, usize)) -> Result<Probe, Fault>
    ensures known { IfOk result (λ probe. probe_of (lists_of names.now) send.now ≡ Some probe) }
    ensures stray { IfErr result (λ fault. (fault ≡ Send) × (probe_of (lists_of names.now) send.now
        ≡ None)) }
{
    let (name, place) = *send;
    match node_called(names, name.as_bytes()) {
        Some(node) => Ok(Probe { node, place }),
        None => Err(Fault::Send),
    }
}

/// The sends that nodes' names and places mean, in their order; `Send` where no node has a name.
pub(crate) fn probes_of(
    alloc: Global,
    names: &[Vec<u8>],
    sends: &[(&str, usize)],
) -> Result<Vec<Probe>, Fault>
    ensures known { IfOk result (λ probes. AreSends (lists_of names.now) sends.now probes.items) }
    ensures stray { IfErr result (λ fault. (fault ≡ Memory) ⊎ ((fault ≡ Send)
        × HasStray (lists_of names.now) sends.now)) }
{
    let mut probes = Vec::new(alloc);
    for send in sends {
        let probe = probe_of(names, send)?;
        add(&mut probes, probe)?;
    }
    Ok(probes)
}

/// Puts a send last.
fn add(probes: &mut Vec<Probe>, probe: Probe) -> Result<(), NoMemory>
    ensures { OnOk result (probes.new.items ≡ probes.old.items ++ probe ∷ []) }
{
    probes.push(probe)?;
    Ok(())
}

/// Why a picture of a run shows nothing.
pub(crate) fn blank_of<const C: usize>(alloc: Global, closed: &Closed<C>) -> Fault
    ensures { TellsNothing closed.now result }
{
    match story(alloc, closed) {
        Ok(rows) => nothing_of(rows.as_slice()),
        Err(StoryFault::Circle) => Fault::Circle,
        Err(StoryFault::NoMemory) => Fault::Memory,
    }
}

/// The picture of those rows of a run that are wanted, drawn, with the times in which its scenario has links down and
/// nodes off: `Send` where the run hasn't one of the sends, `Moments` where the span ends before it begins, `Copies`
/// where too many are wanted, `NoCopies` or `NoneAsked` where none is, `Circle` where its rows have no order of time.
fn picture_of<const C: usize>(
    alloc: Global,
    closed: &Closed<C>,
    names: &[Vec<u8>],
    sends: &[(&str, usize)],
    span: Span,
    scenario: Option<&str>,
) -> Result<Vec<u8>, Fault>
    ensures picture { IfOk result (λ octets. IsPictured (lists_of names.now) closed.now
        (option_map (λ s. s.now) scenario.entry) sends.now span octets.items) }
    ensures undrawn { IfErr result (λ fault. (fault ≡ Memory)
        ⊎ IsUnpicturedIn (lists_of names.now) closed.now sends.now span 400 picture_fault fault) }
{
    let probes = probes_of(alloc, names, sends)?;
    let picture = picture_run(alloc, closed, probes.as_slice(), span, COPY_LIMIT)?;
    // An empty picture would look like a quiet network.
    if picture.arrows.is_empty() {
        return Err(blank_of(alloc, closed));
    }
    let steps = steps_of(alloc, closed.plan(), scenario)?;
    let downs = downs(alloc, steps.as_slice())?;
    let switches = switches(alloc, closed.topology().links(), steps.as_slice())?;
    let octets = drawing(
        alloc,
        closed,
        names,
        &picture,
        downs.as_slice(),
        switches.as_slice(),
    )?;
    Ok(octets)
}

/// The send that is asked for, if one is; `Send` where no node has the name.
fn send_of(names: &[Vec<u8>], send: Option<(&str, usize)>) -> Result<Option<Probe>, Fault>
    ensures known { IfOk result (IsSend (lists_of names.now) send.entry) }
    ensures stray { IfErr result (λ fault. (fault ≡ Send)
        × IsStray (lists_of names.now) send.entry) }
{
    match &send {
        Some(send) => Ok(Some(probe_of(names, send)?)),
        None => Ok(None),
    }
}

/// The finished run that a text is of, by its head and what follows.
fn read_run<const C: usize, R: Read>(
    alloc: Global,
    head: &[u8],
    reader: &mut R,
) -> Result<Closed<C>, ReadFault>
    requires entries { IsTableSize C }
    ensures run { IfOk result (λ closed. IfSome (R.remaining reader.old) (λ rest. IsTextOf C closed
        (head.now ++ rest))) }
    ensures none { IfErr result (λ fault. IfSome (R.remaining reader.old) (λ rest. Answers C
        (Err fault) (head.now ++ rest))) }
{
    // The head was read before, so it is put in front of the rest again.
    let mut whole = head.chain(reader);
    match read(alloc, &mut whole) {
        Ok(closed) => Ok(closed),
        Err(fault) => Err(fault),
    }
}

/// What is asked for of a run.
fn shown_of<const C: usize>(
    alloc: Global,
    closed: &Closed<C>,
    what: &What<'_>,
    scenario: Option<&str>,
) -> Result<Vec<u8>, Fault>
    ensures shown { IfOk result (λ octets. IsShown closed.now what.now
        (option_map (λ s. s.now) scenario.entry) octets.items) }
    ensures unshown { IfErr result (IsUnshown closed.now what.now
        (option_map (λ s. s.now) scenario.entry)) }
{
    // Names come first: sends are asked for by them.
    let names = names_of(alloc, closed.topology(), scenario)?;
    match what {
        What::Devices => Ok(devices(alloc, closed, names.as_slice())?),
        What::Capture { link, send } => {
            let send = send_of(names.as_slice(), *send)?;
            capture_of(
                alloc,
                closed,
                names.as_slice(),
                Choice { link: *link, send },
            )
        }
        What::Picture { sends, span } => {
            picture_of(
                alloc,
                closed,
                names.as_slice(),
                sends.as_slice(),
                *span,
                scenario,
            )
        }
        What::Page { sends, span, title } => page_of(
            alloc,
            closed,
            names.as_slice(),
            sends.as_slice(),
            *span,
            title,
            scenario,
        ),
    }
}

/// What is asked for of the text of a run with tables of `C` entries, by its head and what follows.
fn shown_with<R: Read, const C: usize>(
    alloc: Global,
    head: &[u8],
    reader: &mut R,
    what: &What<'_>,
    scenario: Option<&str>,
) -> Result<Vec<u8>, Fault>
    requires entries { IsTableSize C }
    ensures shown { IfOk result (λ octets. IfSome (R.remaining reader.old) (λ rest.
        IsShownOf C (head.now ++ rest) what.now
        (option_map (λ s. s.now) scenario.entry) octets.items)) }
    ensures unshown { IfErr result (λ fault. IfSome (R.remaining reader.old) (λ rest.
        IsUnshownWith C (given_of (front head.now)) (head.now ++ rest) what.now
        (option_map (λ s. s.now) scenario.entry) fault)) }
{
    match read_run::<C, R>(alloc, head, reader) {
        Ok(closed) => shown_of(alloc, &closed, what, scenario),
        Err(fault) => Err(fault_of_read(fault, given_of(front(head)))),
    }
}

/// What is asked for of the text of a run with tables of this size, by its head and what follows.
fn shown_at<R: Read>(
    alloc: Global,
    head: &[u8],
    reader: &mut R,
    table: TableSize,
    what: &What<'_>,
    scenario: Option<&str>,
) -> Result<Vec<u8>, Fault>
    ensures shown { IfOk result (λ octets. IfSome (R.remaining reader.old) (λ rest.
        IsShownOf (capacity_of table) (head.now ++ rest) what.now
        (option_map (λ s. s.now) scenario.entry) octets.items)) }
    ensures unshown { IfErr result (λ fault. IfSome (R.remaining reader.old) (λ rest.
        IsUnshownWith (capacity_of table) (given_of (front head.now)) (head.now ++ rest) what.now
        (option_map (λ s. s.now) scenario.entry) fault)) }
{
    at_size!(table => shown_with[R](alloc, head, reader, what, scenario))
}

/// What is asked for of a transcript, by its head and what follows, with tables of the size of which it tells.
pub fn shown<R: Read>(
    alloc: Global,
    head: &[u8],
    reader: &mut R,
    what: &What<'_>,
    scenario: Option<&str>,
) -> Result<Vec<u8>, Fault>
    ensures shown { IfOk result (λ octets. IfSome (R.remaining reader.old) (λ rest.
        IsShownOf (capacity_of (told_size (front head.now))) (head.now ++ rest) what.now
        (option_map (λ s. s.now) scenario.entry) octets.items)) }
    ensures unshown { IfErr result (λ fault. IfSome (R.remaining reader.old) (λ rest.
        IsUnshownOf (capacity_of (told_size (front head.now))) (given_of (front head.now)) (head.now
        ++ rest) what.now (option_map (λ s. s.now) scenario.entry) fault)) }
{
    let table = told_size(front(head));
    shown_at(alloc, head, reader, table, what, scenario)
}
