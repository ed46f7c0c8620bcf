//! What tells at once that a run has no flaw.
//!
//! Where each send was noted once at most, nothing that was needed was forgotten: what is forgotten is noted anew. So most runs of
//! networks are told clear by a look at each entry, without the notes that the walk gathers which names flaws.
ghost use Rattle.std.specs.Prelude.{◌≡◌, ◌<◌, ℕ, true, length, IfOk, IfSome};
ghost use Rattle.hsr_network_laws.specs.Network.{IsNetwork};
ghost use Rattle.hsr_routes.specs.Routes.{bare};
ghost use Rattle.hsr_table_flaws.specs.Clear.{IsClear, IsPlain, is_odd, joined, mark_place, meet};

use hsr_finished_run::Closed;
use hsr_forwarding::NUMBER_RANGE;
use hsr_frame::{Exits, NoMemory};
use hsr_node::Probe;
use hsr_routes::{are_going_round, first_unlike_link, have_own_addresses};
use hsr_table_demand::noted_at;
use hsr_topology::Topology;
use std::alloc::Global;

/// Where a send is kept among all entries, of which there are so many: behind those of the nodes before its own.
fn mark_place(starts: &[usize], many: usize, send: Option<Probe>) -> Option<usize>
    ensures is { result ≡ mark_place starts.now many send }
    ensures below { IfSome result (λ at. at < many) }
{
    let send = send?;
    let start = *starts.get(send.node)?;
    // A place behind all of them may overflow, and is none.
    let at = start.checked_add(send.place)?;
    if at < many { Some(at) } else { None }
}

/// Whether some egress is in both.
fn meet(x: Exits, y: Exits) -> bool
    ensures { result ≡ meet x y }
{
    // `&` and `|`, which don't branch: each entry of a run comes by here.
    (x.up & y.up) | (x.a & y.a) | (x.b & y.b) | (x.c & y.c) | (x.d & y.d)
}

/// Whether an entry notes a send where it was noted, or numbers it after it was noted somewhere.
fn is_odd(mark: Exits, noted: Exits, is_numbered: bool) -> bool
    ensures { result ≡ is_odd mark noted is_numbered }
{
    if is_numbered {
        // A number comes first: with one nothing may have been noted, wherever it is.
        return mark.up | mark.a | mark.b | mark.c | mark.d;
    }
    meet(mark, noted)
}

/// The egresses that are in one of both.
fn joined(x: Exits, y: Exits) -> Exits
    ensures { result ≡ joined x y }
{
    // No branches, as in `meet`.
    Exits {
        up: x.up | y.up,
        a: x.a | y.a,
        b: x.b | y.b,
        c: x.c | y.c,
        d: x.d | y.d,
    }
}

/// Whether a node noted no send twice at an egress, numbered none late, and gave no number twice, where it tells so; `marks` are for
/// all entries of the run.
fn is_plain<const C: usize>(
    closed: &Closed<C>,
    node: usize,
    starts: &[usize],
    marks: &mut [Exits],
) -> bool
    requires { node < length closed.now.run.places }
    ensures { result ≡ true → IsPlain closed.now.run node }
{
    let mut numbers = 0u64;
    for (place, x) in closed.entries(node).iter().enumerate() {
        let send = x.event.probe(Probe { node, place });
        let Some(at) = mark_place(starts, marks.len(), send) else {
            return false;
        };
        let noted = noted_at(&x.outcome);
        let is_numbered = x.outcome.number().is_some();
        if is_odd(marks[at], noted, is_numbered) {
            return false;
        }
        marks[at] = joined(marks[at], noted);
        numbers += u64::from(is_numbered);
    }
    // After so many numbers the first one comes again.
    numbers <= NUMBER_RANGE
}

/// Lets no mark of a node stand.
// No clause: a mark that stayed could only raise a false alarm.
fn unmark<const C: usize>(closed: &Closed<C>, node: usize, starts: &[usize], marks: &mut [Exits])
    requires { node < length closed.now.run.places }
{
    for (place, x) in closed.entries(node).iter().enumerate() {
        let send = x.event.probe(Probe { node, place });
        if let Some(at) = mark_place(starts, marks.len(), send) {
            marks[at] = Exits::none();
        }
    }
}

/// Whether that is so of all nodes, where it tells so.
fn are_plain<const C: usize>(closed: &Closed<C>, starts: &[usize], marks: &mut [Exits]) -> bool
    ensures { result ≡ true → ((k : ℕ) → k < length closed.now.run.places
        → IsPlain closed.now.run k) }
{
    for node in 0..closed.topology().places().len() {
        if !is_plain(closed, node, starts, marks) {
            return false;
        }
        // The room of one node serves the next. Only what it marked goes: the whole room is for all entries of the run.
        unmark(closed, node, starts, marks);
    }
    true
}

/// Where the entries of each node begin, all nodes' one behind the other, and how many there are.
// No clause: by other places fewer runs would be told clear, and none that isn't.
fn starts_of<const C: usize>(
    alloc: Global,
    closed: &Closed<C>,
) -> Result<(Vec<usize>, usize), NoMemory> {
    let mut starts = Vec::new(alloc);
    let mut many = 0usize;
    for node in 0..closed.topology().places().len() {
        starts.push(many)?;
        many = many.saturating_add(closed.entries(node).len());
    }
    Ok((starts, many))
}

/// Whether nodes and links are a network.
fn is_network(topology: &Topology) -> bool
    ensures { result ≡ true → IsNetwork (bare topology.now.places topology.now.links) }
{
    are_going_round(topology)
        && have_own_addresses(topology)
        && first_unlike_link(topology).is_none()
}

/// Whether it shows at once that a run forgot nothing that was needed, mistook no number and gave none late: where nodes and links are
/// a network, and no node noted a send twice, numbered one late or gave a number twice. It may be so all the same where this doesn't
/// tell it. `NoMemory` if allocation fails.
pub(crate) fn is_clear<const C: usize>(alloc: Global, closed: &Closed<C>) -> Result<bool, NoMemory>
    ensures { IfOk result (λ told. told ≡ true → IsClear closed.now.run) }
{
    if !is_network(closed.topology()) {
        return Ok(false);
    }
    let (starts, many) = starts_of(alloc, closed)?;
    let mut marks = vec![in alloc; Exits::none(); many]?;
    Ok(are_plain(closed, &starts, &mut marks))
}
