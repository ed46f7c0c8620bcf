//! Whether there is a send, and the first that isn't covered.
ghost use Rattle.std.specs.Prelude.{◌≡◌, ◌↔◌, ◌<◌, true, false, length, IsTrue};
ghost use Rattle.hsr_finished_run.specs.Finished.{IsFinished};
ghost use Rattle.hsr_run_laws.specs.Run.{past_of, place_of, record_of};
ghost use Rattle.hsr_audit.specs.Sends.{HasSend, IsCoveredAt, IsNoSendAt};
ghost use Rattle.hsr_audit.specs.Placed.{HoldsBelow, IsFirstIn, IsFirstPair};
ghost use Rattle.hsr_node.specs.Flow.{send_at};

use crate::covered::is_promised;
use hsr_finished_run::Closed;
use hsr_node::{SentView, sent_view};

/// What an entry of a node sends, if it is a send.
pub(crate) fn send_at<const C: usize>(
    closed: &Closed<C>,
    node: usize,
    place: usize,
) -> Option<SentView<'_>>
    requires node { node < length closed.now.run.places }
    requires place { place < length (record_of closed.now.run node) }
    ensures { result ≡ send_at (place_of closed.now.run node) place (past_of closed.now.run node) }
{
    let x = &closed.entries(node)[place];
    sent_view(&closed.topology().places()[node], &x.event, &x.outcome)
}

/// Whether an entry of a node is a send.
fn is_send_at<const C: usize>(closed: &Closed<C>, node: usize, place: usize) -> bool
    requires node { node < length closed.now.run.places }
    requires place { place < length (record_of closed.now.run node) }
    ensures some { result ≡ true → HasSend closed.now.run }
    ensures none { result ≡ false → IsNoSendAt closed.now.run node place }
{
    send_at(closed, node, place).is_some()
}

/// Whether a node has a send.
fn has_send_in<const C: usize>(closed: &Closed<C>, node: usize) -> bool
    requires { node < length closed.now.run.places }
    ensures some { result ≡ true → HasSend closed.now.run }
    ensures none { result ≡ false → HoldsBelow (IsNoSendAt closed.now.run) node
        (length (record_of closed.now.run node)) }
{
    for place in 0..closed.entries(node).len() {
        if is_send_at(closed, node, place) {
            return true;
        }
    }
    false
}

/// Whether a run has a send.
pub(crate) fn has_send<const C: usize>(closed: &Closed<C>) -> bool
    ensures { IsTrue result ↔ HasSend closed.now.run }
{
    for node in 0..closed.topology().places().len() {
        if has_send_in(closed, node) {
            return true;
        }
    }
    false
}

/// Whether an entry of a node is no send, or one that is covered.
fn is_covered_at<const C: usize>(closed: &Closed<C>, node: usize, place: usize) -> bool
    requires node { node < length closed.now.run.places }
    requires place { place < length (record_of closed.now.run node) }
    ensures { IsTrue result ↔ IsCoveredAt closed.now.run node place }
{
    match send_at(closed, node, place) {
        Some(sending) => is_promised(closed.topology(), node, &sending.frame),
        None => true,
    }
}

/// The first send of a node that isn't covered, by its place.
fn uncovered_in<const C: usize>(closed: &Closed<C>, node: usize) -> Option<usize>
    requires { node < length closed.now.run.places }
    ensures { IsFirstIn (IsCoveredAt closed.now.run) node
        (length (record_of closed.now.run node)) result }
{
    for place in 0..closed.entries(node).len() {
        if !is_covered_at(closed, node, place) {
            return Some(place);
        }
    }
    None
}

/// The first send that isn't covered, by its node and place.
pub(crate) fn first_uncovered<const C: usize>(closed: &Closed<C>) -> Option<(usize, usize)>
    ensures { IsFirstPair closed.now.run (IsCoveredAt closed.now.run) result }
{
    for node in 0..closed.topology().places().len() {
        if let Some(place) = uncovered_in(closed, node) {
            return Some((node, place));
        }
    }
    None
}
