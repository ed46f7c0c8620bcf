//! Who brought the entries of a run by threads.
ghost use Rattle.std.specs.Prelude.{◌≡◌, ◌<◌, MatchOption};
ghost use Rattle.hsr_runner.specs.Brought.{InjectsNothing, IsFirstAlien, IsUnlike, NoneIsAlien, brings, first_alien, first_injected};

use hsr_finished_run::{Closed, Disagree};
use hsr_node::{Entry, Event};
use hsr_scenario::Order;
use hsr_topology::{End, ager, port_worker};
use hsr_world_steps::Step;

/// Whether a worker, but for the main one, brings an event to a node: that of its port an arrival, that of the node's ager an age.
fn brings(node: usize, event: &Event, worker: u16) -> bool
    requires { node < 64 }
    ensures { result ≡ brings node event.now worker }
{
    match event {
        Event::Arrive { port, carried: _ } => worker == port_worker(End { node, port: *port }),
        Event::Age => worker == ager(node),
        _ => false,
    }
}

/// The worker of the first entry of a node that is neither the main worker's nor of the one that brings such.
fn first_alien(node: usize, entries: &[Entry]) -> Option<u16>
    requires { node < 64 }
    ensures { result ≡ first_alien node entries.now }
{
    for (place, entry) in entries.iter().enumerate() {
        if entry.worker != 0 && !brings(node, &entry.event, entry.worker) {
            return Some(entry.worker);
        }
    }
    None
}

/// The worker of the first such entry of the lowest node that has one.
fn alien_of<const C: usize>(closed: &Closed<C>) -> Option<u16>
    ensures { MatchOption result (NoneIsAlien closed.now.run) (IsFirstAlien closed.now.run) }
{
    for node in 0..closed.topology().places().len() {
        if let Some(worker) = first_alien(node, closed.entries(node)) {
            return Some(worker);
        }
    }
    None
}

/// The link on which orders first put what no port sent.
fn injected_link(orders: &[Order]) -> Option<usize>
    ensures { result ≡ first_injected orders.now }
{
    // The index is used by the loop's invariant alone.
    for (index, order) in orders.iter().enumerate() {
        if let Order::Step(Step::Inject { link, .. }) = order {
            return Some(*link);
        }
    }
    None
}

/// What the closing check can't see, since it knows no scenario: that an injection was passed over, whose row it would have refused;
/// or that an entry was brought by another worker than its own.
pub(crate) fn unlike<const C: usize>(closed: &Closed<C>, orders: &[Order]) -> Option<Disagree>
    ensures { MatchOption result (InjectsNothing orders.now × NoneIsAlien closed.now.run)
        (IsUnlike closed.now.run orders.now) }
{
    if let Some(link) = injected_link(orders) {
        // No row can be named: the injection was passed over, so it has none.
        return Some(Disagree::Stranger { link, row: 0 });
    }
    match alien_of(closed) {
        Some(worker) => Some(Disagree::Receipts { worker }),
        None => None,
    }
}
