//! The rows that are wanted.
ghost use Rattle.std.specs.Prelude.{◌≡◌, filter, slice_get, IfOk, Some};
ghost use Rattle.hsr_timeline.specs.Choice.{checked, has_send, is_copy_of, is_send_at, is_wanted};

use crate::choice::{Choice, ChoiceFault};
use crate::shown::Shown;
use hsr_finished_run::{Closed, push_if};
use hsr_frame::NoMemory;
use hsr_link::Row;
use hsr_node::{Entry, Outcome, Probe};
use std::alloc::Global;

/// Whether an entry of a record is a send, or a supervision frame that was sent.
fn is_send_at(entries: &[Entry], place: usize) -> bool
    ensures { result ≡ is_send_at (slice_get entries.now place) }
{
    match entries.get(place) {
        Some(entry) => matches!(entry.outcome, Outcome::Sent { .. } | Outcome::Life { .. }),
        None => false,
    }
}

/// Whether a run has a send.
fn has_send<const C: usize>(closed: &Closed<C>, send: Probe) -> bool
    ensures { result ≡ has_send closed.now.run (Some send) }
{
    send.node < closed.topology().places().len()
        && is_send_at(closed.entries(send.node), send.place)
}

/// Whether a run has what is wanted: `NoLink` exactly where it hasn't the link; `NoSend` exactly where it has that, and hasn't the
/// send, an entry that is a send or a supervision frame.
pub fn check_choice<const C: usize>(closed: &Closed<C>, choice: Choice) -> Result<(), ChoiceFault>
    ensures { result ≡ checked closed.now.run choice }
{
    if let Some(link) = choice.link
        && link >= closed.topology().links().len()
    {
        // A fault and no empty answer: a slip of the pen isn't to look like a quiet link.
        return Err(ChoiceFault::NoLink);
    }
    match choice.send {
        Some(send) if !has_send(closed, send) => Err(ChoiceFault::NoSend),
        _ => Ok(()),
    }
}

/// Whether a row of these is a copy of a send, if one is wanted.
fn is_copy_of(send: Option<Probe>, rows: &[Row], number: usize) -> bool
    ensures { result ≡ is_copy_of send (slice_get rows.now number) }
{
    match (send, rows.get(number)) {
        (None, _) => true,
        (Some(send), Some(row)) => row.carried.probe == Some(send),
        (Some(_), None) => false,
    }
}

/// Whether a row is wanted.
pub fn is_wanted<const C: usize>(closed: &Closed<C>, choice: Choice, shown: &Shown) -> bool
    ensures { result ≡ is_wanted closed.now.run choice shown.now }
{
    let is_on = match choice.link {
        Some(link) => shown.link == link,
        None => true,
    };
    is_on && is_copy_of(choice.send, closed.rows_at(shown.link), shown.number)
}

/// The rows of a run that are wanted, of these and in their order. `NoMemory` if allocation fails.
pub fn chosen<const C: usize>(
    alloc: Global,
    closed: &Closed<C>,
    choice: Choice,
    rows: &[Shown],
) -> Result<Vec<Shown>, NoMemory>
    ensures { IfOk result (λ list. list.items ≡ filter (is_wanted closed.now.run choice) rows.now) }
{
    let mut list = Vec::new(alloc);
    // The index is used by the loop's invariant alone.
    for (i, row) in rows.iter().enumerate() {
        // A filter of the list, so that a part has the order and the moments of the whole.
        push_if(&mut list, is_wanted(closed, choice, row), *row)?;
    }
    Ok(list)
}
