//! The ager of a node.
ghost use Rattle.std.specs.Prelude.{false};
ghost use Rattle.hsr_runner.specs.Endings.{IsEnding};

use crate::cells::{Cells, Seat};
use crate::ending::Ending;
use hsr_node::{Event, Pass};
use std::sync::Wait;

/// Ages a node at each turn at which the clock word has another moment than at the last, and ends at "stop"; after it read that,
/// it looks once more. An age is refused for memory alone.
pub(crate) fn age<const C: usize>(
    rt: &impl Wait,
    cells: &Cells<C>,
    seat: &Seat<C>,
    pass: &mut Pass,
) -> Ending
    ensures { IsEnding C false result }
{
    let mut seen = 0;
    for _ in rt.forever() {
        // "Stop" is read before the clock: so the last moment that was set is still seen after it.
        let stops = cells.flight.is_stopped();
        let now = cells.moment();
        if now != seen {
            seen = now;
            if seat.cell.step(rt, pass, now, Event::Age).is_err() {
                return Ending::NoMemory;
            }
        }
        if stops {
            return Ending::Stopped;
        }
        seat.ager.park(rt);
    }
    // `forever` has no last turn.
    unreachable!()
}
