//! The effective moments of the sends of a run.
ghost use Rattle.std.specs.Prelude.{◌≡◌, ◌++◌, length, reverse, IfOk, OnOk, IsPermutation};
ghost use Rattle.std.specs.List.Sorted.{IsNonDecreasing};
ghost use Rattle.hsr_run_laws.specs.Budget.{is_sending};
ghost use Rattle.hsr_finished_run.specs.Finished.{IsFinished};
ghost use Rattle.hsr_audit.specs.Timed.{AreSendMoments, sent_moments, sent_moments_below};

use hsr_deliveries::push_if;
use hsr_finished_run::Closed;
use hsr_frame::NoMemory;
use hsr_node::{Entry, Event};
use std::alloc::Global;

/// Whether an event is a send of a node, its supervision frames among them.
fn is_sending(event: &Event) -> bool
    ensures { result ≡ is_sending event.now }
{
    matches!(event, Event::Send { .. } | Event::Supervise(_))
}

/// Puts the effective moments of a record's sends last, the oldest first.
fn put_sent(sends: &mut Vec<u64>, entries: &[Entry]) -> Result<(), NoMemory>
    ensures { OnOk result (sends.new.items ≡ sends.old.items
        ++ sent_moments (reverse entries.now)) }
{
    let mut moment = 0_u64;
    for x in entries {
        moment = moment.max(x.at);
        push_if(sends, is_sending(&x.event), moment)?;
    }
    Ok(())
}

/// The effective moments of a run's sends by node and place.
fn gather<const C: usize>(alloc: Global, closed: &Closed<C>) -> Result<Vec<u64>, NoMemory>
    ensures capacity { closed.now.run.capacity ≡ C }
    ensures finished { IsFinished closed.now }
    ensures sends { IfOk result (λ sends. sends.items ≡ sent_moments_below closed.now.run
        (length closed.now.run.places)) }
{
    let mut sends = Vec::new(alloc);
    for node in 0..closed.topology().places().len() {
        put_sent(&mut sends, closed.entries(node))?;
    }
    Ok(sends)
}

/// Puts moments into their order.
fn sort(moments: &mut Vec<u64>)
    ensures rise { IsNonDecreasing moments.new.items }
    ensures same { IsPermutation moments.old.items moments.new.items }
{
    // Equal moments can't be told apart, so their order doesn't matter.
    moments.sort_unstable();
}

/// The effective moments of all sends of a run in microseconds, rising. `NoMemory` if allocation fails.
pub(crate) fn send_moments<const C: usize>(
    alloc: Global,
    closed: &Closed<C>,
) -> Result<Vec<u64>, NoMemory>
    ensures capacity { closed.now.run.capacity ≡ C }
    ensures finished { IsFinished closed.now }
    ensures sends { IfOk result (λ sends. AreSendMoments closed.now.run sends.items) }
{
    let mut sends = gather(alloc, closed)?;
    sort(&mut sends);
    Ok(sends)
}
