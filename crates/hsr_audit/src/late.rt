//! The first arrival that comes late.
ghost use Rattle.std.specs.Prelude.{◌≡◌, ◌<◌, length, MatchOption};
ghost use Rattle.hsr_audit.specs.Budgeted.{AreInTime, IsInTimeAt};
ghost use Rattle.hsr_audit.specs.Timed.{InTimeBelow, IsFirstLate, is_in_time, is_timely};
ghost use Rattle.hsr_run_laws.specs.Run.{record_of};
ghost use Rattle.hsr_table_flaws.specs.Flaws.{IsFirstNot};

use hsr_duptable::ENTRY_FORGET;
use hsr_finished_run::Closed;
use hsr_moments::Moments;
use hsr_node::{Event, Probe};

/// Whether a moment is that of a send, or less than the time later for which a frame is remembered.
fn is_timely(sent: u64, at: u64) -> bool
    ensures { result ≡ is_timely sent at }
{
    // Compared first, so that the difference isn't below 0.
    sent <= at && at - sent < ENTRY_FORGET
}

/// Whether an event at an effective moment, if it is an arrival, comes in time.
fn is_in_time<const C: usize>(moments: &Moments<'_, C>, at: u64, event: &Event) -> bool
    ensures { result ≡ is_in_time moments.now at event.now }
{
    match event {
        Event::Arrive { carried, .. } => match carried.probe {
            Some(send) => is_timely(moments.at(send), at),
            None => true,
        },
        _ => true,
    }
}

/// The first place of a node's record where an arrival comes late.
fn late_in<const C: usize>(
    closed: &Closed<C>,
    moments: &Moments<'_, C>,
    node: usize,
) -> Option<usize>
    requires node { node < length closed.now.run.places }
    requires moments { moments.now ≡ closed.now.run }
    ensures { MatchOption result (InTimeBelow closed.now.run node
        (length (record_of closed.now.run node))) (IsFirstLate closed.now.run node) }
{
    for (place, x) in closed.entries(node).iter().enumerate() {
        let at = moments.at(Probe { node, place });
        if !is_in_time(moments, at, &x.event) {
            return Some(place);
        }
    }
    None
}

/// The lowest node, and its lowest place, where an arrival comes late.
pub(crate) fn first_late<const C: usize>(
    closed: &Closed<C>,
    moments: &Moments<'_, C>,
) -> Option<(usize, usize)>
    requires { moments.now ≡ closed.now.run }
    ensures { MatchOption result (AreInTime closed.now.run) (λ late. IsFirstNot closed.now.run
        (IsInTimeAt closed.now.run) late.0 late.1) }
{
    for node in 0..closed.topology().places().len() {
        if let Some(place) = late_in(closed, moments, node) {
            return Some((node, place));
        }
    }
    None
}
