//! How many sends each stream had, and how many of them are complete.
ghost use Rattle.std.specs.Prelude.{◌≡◌, ◌+◌, ◌<◌, ◌^◌, ℕ, length, slice_get, IfOk, Some};
ghost use Rattle.hsr_plan_report.specs.Streams.{AreSent, Counts, counts_at, row_of, with_send};

use hsr_frame::NoMemory;
use hsr_plan_sweep::{Outcome, stream_at};
use std::alloc::Global;

/// How many sends count at a row, and how many of these are complete.
#[derive(Clone, Copy, Default, PartialEq, Eq)]
pub(crate) struct Sent {
    pub(crate) sends: usize,
    pub(crate) complete: usize,
}

/// The row of a send: that of its stream, or the last one, that of supervision.
pub(crate) fn row_of(last: usize, stream: Option<usize>) -> usize
    ensures { result ≡ row_of last stream }
{
    match stream {
        None => last,
        Some(stream) => stream,
    }
}

/// With one more send.
fn with_send(sent: Sent, is_complete: bool) -> Sent
    ensures { result ≡ with_send sent is_complete }
{
    Sent {
        sends: sent.sends.saturating_add(1),
        complete: if is_complete {
            sent.complete.saturating_add(1)
        } else {
            sent.complete
        },
    }
}

/// Counts a send at its row, if there is one.
fn count_at(sent: &mut Vec<Sent>, row: usize, is_complete: bool)
    ensures { Counts row is_complete sent.old.items sent.new.items }
{
    if row < sent.len() {
        sent[row] = with_send(sent[row], is_complete);
    }
}

/// How many sends count at each row up to the last one, where these are their streams and what became of them.
pub(crate) fn sent_of(
    alloc: Global,
    streams: &[Option<usize>],
    outcomes: &[Outcome],
    last: usize,
) -> Result<Vec<Sent>, NoMemory>
    requires { last + 1 < 2 ^ 64 }
    ensures long { IfOk result (λ sent. length sent.items ≡ last + 1) }
    ensures sent { IfOk result (λ sent. AreSent streams.now last outcomes.now sent.items) }
{
    let mut sent = vec![in alloc; Sent::default(); last + 1]?;
    for index in 0..outcomes.len() {
        let row = row_of(last, stream_at(streams, index));
        count_at(&mut sent, row, outcomes[index].is_complete());
    }
    Ok(sent)
}
