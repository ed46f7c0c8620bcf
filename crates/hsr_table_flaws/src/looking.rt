//! The first places of a record where something is forgotten, mistaken and numbered late.
ghost use Rattle.std.specs.Prelude.{◌≡◌, ◌<◌, [], if◌then◌else◌, length, IfOk, Some, None};
ghost use Rattle.std.specs.Option.{option_or};
ghost use Rattle.hsr_run_laws.specs.Run.{owner_of};
ghost use Rattle.hsr_table_flaws.specs.Flaws.{AreFirsts};
ghost use Rattle.hsr_table_flaws.specs.Looked.{IsLogOf};

use crate::log::Log;
use hsr_finished_run::Closed;
use hsr_frame::NoMemory;
use hsr_node::Probe;
use std::alloc::Global;

/// The first place of a record where something is forgotten, the first where something is mistaken, and the first where
/// something is numbered late.
#[derive(Clone, Copy)]
pub(crate) struct Firsts {
    pub(crate) forgot: Option<usize>,
    pub(crate) mistaken: Option<usize>,
    pub(crate) late: Option<usize>,
}

/// A place, or this one if it is one.
fn first_of(first: Option<usize>, is_one: bool, i: usize) -> Option<usize>
    ensures { result ≡ option_or first (if is_one then Some i else None) }
{
    match first {
        Some(place) => Some(place),
        None => { if is_one { Some(i) } else { None } }
    }
}

/// The first places of a node's record, from a log in which nothing is noted.
fn walk<const C: usize>(closed: &Closed<C>, node: usize, log: &mut Log) -> Result<Firsts, NoMemory>
    requires node { node < length closed.now.run.places }
    requires log { IsLogOf (owner_of closed.now.run node) [] log.old }
    ensures { IfOk result (λ f. AreFirsts closed.now.run node f.forgot f.mistaken f.late) }
{
    let place = &closed.topology().places()[node];
    let mut forgot = None;
    let mut mistaken = None;
    let mut late = None;
    for (i, x) in closed.entries(node).iter().enumerate() {
        let look = log.step(C, place, Probe { node, place: i }, x)?;
        forgot = first_of(forgot, look.forgets, i);
        mistaken = first_of(mistaken, look.mistakes, i);
        late = first_of(late, look.is_late, i);
    }
    Ok(Firsts {
        forgot,
        mistaken,
        late,
    })
}

/// The first places of a node's record.
pub(crate) fn firsts_of<const C: usize>(
    alloc: Global,
    closed: &Closed<C>,
    node: usize,
) -> Result<Firsts, NoMemory>
    requires { node < length closed.now.run.places }
    ensures { IfOk result (λ f. AreFirsts closed.now.run node f.forgot f.mistaken f.late) }
{
    let mut log = Log::new(alloc);
    // Made here and lent: a function that owns one value has few returns on which others are dropped.
    walk(closed, node, &mut log)
}
