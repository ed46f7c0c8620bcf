//! How long copies went over the channels of a run.
ghost use Rattle.std.specs.Prelude.{◌≡◌, ◌≤◌, fold, None};
ghost use Rattle.hsr_load.specs.Loads.{time_of, wider, wider_by};

use crate::carrying::Channel;
use crate::transit::Transit;

/// The least time in microseconds over which a mean is taken.
const LEAST_TIME: u64 = 1000;

/// The first moment and the last, with one more copy.
fn wider(ends: Option<(u64, u64)>, transit: Transit) -> Option<(u64, u64)>
    ensures { result ≡ wider ends transit }
{
    match ends {
        None => Some((transit.moment, transit.moment)),
        Some((first, last)) => Some((first.min(transit.moment), last.max(transit.moment))),
    }
}

/// With those that a channel carried.
fn wider_by(ends: Option<(u64, u64)>, transits: &[Transit]) -> Option<(u64, u64)>
    ensures { result ≡ fold wider ends transits.now }
{
    let mut all = ends;
    for transit in transits {
        all = wider(all, *transit);
    }
    all
}

/// The first moment and the last of all copies that channels carried.
fn first_and_last(channels: &[Channel]) -> Option<(u64, u64)>
    ensures { result ≡ fold wider_by None channels.now }
{
    let mut ends = None;
    for channel in channels {
        ends = wider_by(ends, channel.transits.as_slice());
    }
    ends
}

/// The time between them in microseconds, a millisecond at least.
fn time_of(ends: Option<(u64, u64)>) -> u64
    ensures time { result ≡ time_of ends }
    ensures least { 1000 ≤ result }
{
    match ends {
        None => LEAST_TIME,
        Some((first, last)) => LEAST_TIME.max(last.saturating_sub(first)),
    }
}

/// For how long copies went over these channels, in microseconds, a millisecond at least.
pub(crate) fn span(channels: &[Channel]) -> u64
    ensures time { result ≡ time_of (fold wider_by None channels.now) }
    ensures least { 1000 ≤ result }
{
    time_of(first_and_last(channels))
}
