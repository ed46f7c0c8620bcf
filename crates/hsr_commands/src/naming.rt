//! What a report and tables call the nodes, sends and ports of a run.
ghost use Rattle.std.specs.Prelude.{◌≡◌, IfErr, IfOk};
ghost use Rattle.hsr_commands.specs.Naming.{IsCalled, IsMisnamed, IsMisnamedBy, IsNamedBy, IsNaming, IsNodeNaming, IsOf, IsReadAs, names_in};
ghost use Rattle.hsr_commands.specs.Shown.{text_if};
ghost use Rattle.hsr_scenario.specs.Names.{names_view};
ghost use Rattle.hsr_commands.specs.declared.fault.Fault.TheVariants.{Memory};

use crate::fault::Fault;
use hsr_finished_run::Closed;
use hsr_given::{Unnamed, other, unread};
use hsr_naming::{Names, Naming};
use hsr_run_names::{has_sends, names_of};
use hsr_scenario::{Names as ScenarioNames, What, read_names};
use hsr_topology::is_same_topology;
use std::alloc::Global;

/// The names that a text has; none where they can't be read.
fn names_in(alloc: Global, octets: &[u8]) -> Result<Option<ScenarioNames>, Fault>
    ensures ok { IfOk result (IsReadAs (names_in octets.now)) }
    ensures err { IfErr result (λ f. f ≡ Memory) }
{
    let Ok(text) = str::from_utf8(octets) else {
        return Ok(None);
    };
    match read_names(alloc, text) {
        Ok(names) => Ok(Some(names)),
        Err(fault) => match fault.what {
            What::NoMemory => Err(Fault::Memory),
            _ => Ok(None),
        },
    }
}

/// The naming of a finished run by these names.
fn called<const C: usize>(
    alloc: Global,
    closed: &Closed<C>,
    names: ScenarioNames,
) -> Result<Naming, Fault>
    ensures ok { IfOk result (IsCalled (names_view names) closed.now.run) }
    ensures err { IfErr result (λ f. f ≡ Memory) }
{
    match names_of(alloc, closed, names.names, names.streams.as_slice()) {
        Ok(names) => Ok(Naming::Names(names)),
        Err(_) => Err(Fault::Memory),
    }
}

/// What a finished run of the scenario that octets mean is called by, where names are asked for; else numbers.
/// `Fault::Memory` if allocation fails, and no other fault.
pub fn naming_of<const C: usize>(
    alloc: Global,
    octets: &[u8],
    closed: &Closed<C>,
    names: bool,
) -> Result<Naming, Fault>
    ensures ok { IfOk result (IsNaming names (names_in octets.now) closed.now.run) }
    ensures err { IfErr result (λ f. f ≡ Memory) }
{
    if !names {
        return Ok(Naming::Numbers);
    }
    match names_in(alloc, octets) {
        Ok(Some(names)) => called(alloc, closed, names),
        // Never so: the text of a run is a scenario, which has names.
        Ok(None) => Ok(Naming::Numbers),
        Err(fault) => Err(fault),
    }
}

/// What the nodes of the scenario that octets mean are called by, where names are asked for; else numbers.
/// `Fault::Memory` if allocation fails, and no other fault.
pub fn node_naming(alloc: Global, octets: &[u8], names: bool) -> Result<Naming, Fault>
    ensures ok { IfOk result (IsNodeNaming names (names_in octets.now)) }
    ensures err { IfErr result (λ f. f ≡ Memory) }
{
    if !names {
        return Ok(Naming::Numbers);
    }
    match names_in(alloc, octets) {
        Ok(Some(names)) => Ok(Naming::Names(Names {
            nodes: names.names,
            entries: Vec::new(alloc),
        })),
        Ok(None) => Ok(Naming::Numbers),
        Err(fault) => Err(fault),
    }
}

/// The naming of a finished run by the names of a scenario's text, if it is a scenario of that run.
fn called_if<const C: usize>(
    alloc: Global,
    closed: &Closed<C>,
    text: &str,
    names: ScenarioNames,
) -> Result<Naming, Fault>
    ensures ok { IfOk result (λ naming. IsOf closed.now.run (names_view names)
        × IsCalled (names_view names) closed.now.run naming) }
    ensures err { IfErr result (IsMisnamedBy text.now closed.now.run (names_view names)) }
{
    if !is_same_topology(&names.topology, closed.topology()) {
        return Err(Fault::Names(other(text.as_bytes())));
    }
    // Streams of other sends would name the wrong ones.
    if !has_sends(closed, names.streams.as_slice()) {
        return Err(Fault::Names(Unnamed::Sends));
    }
    called(alloc, closed, names)
}

/// What a finished run is called by, where a scenario is given for its names; else numbers. `Fault::Names` exactly where its names can't be
/// read, or it has other nodes, links or sends, with what it is; `Fault::Memory` if allocation fails.
pub fn naming_by<const C: usize>(
    alloc: Global,
    closed: &Closed<C>,
    scenario: Option<&str>,
) -> Result<Naming, Fault>
    ensures ok { IfOk result (IsNamedBy (text_if scenario.entry) closed.now.run) }
    ensures err { IfErr result (IsMisnamed (text_if scenario.entry) closed.now.run) }
{
    let Some(text) = scenario else {
        return Ok(Naming::Numbers);
    };
    match read_names(alloc, text) {
        Ok(names) => called_if(alloc, closed, text, names),
        Err(fault) => match fault.what {
            What::NoMemory => Err(Fault::Memory),
            _ => Err(Fault::Names(unread(text.as_bytes()))),
        },
    }
}
