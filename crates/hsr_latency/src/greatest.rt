//! The send that took longest.
ghost use Rattle.std.specs.Prelude.{◌≡◌};
ghost use Rattle.hsr_latency.specs.Delays.{greatest, is_greater, is_lower};
ghost use Rattle.hsr_latency.specs.Kept.{greater};

use crate::delay::Delay;
use hsr_node::Probe;

/// Whether a send is before another, by node and place.
fn is_lower(x: Probe, y: Probe) -> bool
    ensures { result ≡ is_lower x y }
{
    x.node < y.node || (x.node == y.node && x.place < y.place)
}

/// Whether a send took longer than another, or as long and is before it.
fn is_greater(x: Delay, y: Delay) -> bool
    ensures { result ≡ is_greater x y }
{
    y.time < x.time || (x.time == y.time && is_lower(x.send, y.send))
}

/// The greater of two, of equals that of the lower send.
pub(crate) fn greater(most: Option<Delay>, delay: Delay) -> Option<Delay>
    ensures { result ≡ greater most delay }
{
    match most {
        None => Some(delay),
        Some(most) => {
            if is_greater(delay, most) {
                Some(delay)
            } else {
                Some(most)
            }
        }
    }
}

/// The greatest, of equals that of the lowest send.
pub(crate) fn greatest_of(delays: &[Delay]) -> Option<Delay>
    ensures { result ≡ greatest delays.now }
{
    let mut most = None;
    for delay in delays {
        most = greater(most, *delay);
    }
    most
}
