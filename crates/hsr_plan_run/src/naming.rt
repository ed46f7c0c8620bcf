//! What the nodes and sends of a plan's run are called.
ghost use Rattle.std.specs.Prelude.{IfOk, Ok, true};
ghost use Rattle.hsr_commands.specs.Naming.{IsNaming};
ghost use Rattle.hsr_plan_scenario.specs.Says.{names_meant_by};

use hsr_finished_run::Closed;
use hsr_frame::NoMemory;
use hsr_naming::Naming;
use hsr_plan_scenario::{node_names, streams_meant};
use hsr_plan_schedule::Meaning;
use hsr_run_names::names_of;
use std::alloc::Global;

/// The naming of a finished run by the names that a plan means.
fn called<const C: usize>(
    alloc: Global,
    meaning: &Meaning,
    closed: &Closed<C>,
) -> Result<Naming, NoMemory>
    ensures { IfOk result (IsNaming true (Ok (names_meant_by meaning.now)) closed.now.run) }
{
    let nodes = node_names(alloc, meaning.nodes.as_slice())?;
    let streams = streams_meant(alloc, meaning)?;
    let names = names_of(alloc, closed, nodes, streams.as_slice())?;
    Ok(Naming::Names(names))
}

/// What a finished run of what a plan means is called by, where names are asked for; else numbers.
pub(crate) fn naming_of<const C: usize>(
    alloc: Global,
    meaning: &Meaning,
    closed: &Closed<C>,
    names: bool,
) -> Result<Naming, NoMemory>
    ensures { IfOk result (IsNaming names (Ok (names_meant_by meaning.now)) closed.now.run) }
{
    if names {
        called(alloc, meaning, closed)
    } else {
        Ok(Naming::Numbers)
    }
}
