//! Whether a copy came in time.
ghost use Rattle.std.specs.Prelude.{◌≡◌};
ghost use Rattle.hsr_judging.specs.Windows.{has, in_time, is_ahead, is_over, is_past, late, us_from};

use hsr_tap_device::Times;

/// How late a copy may be that is still told of as late, in microseconds: after so long nodes have forgotten its frame.
const FORGET: u64 = 400_000;

/// From when to when after its cause a copy comes, in microseconds, differences of nanoseconds being rounded down.
#[derive(Clone, Copy)]
pub(crate) struct Window {
    /// So long before its cause at most.
    pub early: u64,
    /// Only after more than so long, where that is said.
    pub after: Option<u64>,
    /// So long after its cause at most.
    pub most: u64,
}

/// Microseconds from one moment to another, rounded down; 0 where that isn't later.
pub(crate) fn us_from(from: u64, to: u64) -> u64
    ensures { result ≡ us_from from to }
{
    to.saturating_sub(from) / 1000
}

/// Whether a time is longer than another, where that is said.
fn is_past(after: Option<u64>, long: u64) -> bool
    ensures { result ≡ is_past after long }
{
    match after {
        None => true,
        Some(after) => long > after,
    }
}

impl Window {
    /// In time.
    pub(crate) fn in_time(times: &Times) -> Window
        ensures { result ≡ in_time times.now }
    {
        Window {
            early: times.early,
            after: None,
            most: times.within,
        }
    }

    /// Late, and not forgotten.
    pub(crate) fn late(times: &Times) -> Window
        ensures { result ≡ late times.now }
    {
        Window {
            early: 0,
            after: Some(times.within),
            most: times.within.saturating_add(FORGET),
        }
    }

    /// Whether a copy at a moment is behind the window of what was caused at another, in nanoseconds.
    pub(crate) fn is_over(self, cause: u64, seen: u64) -> bool
        ensures { result ≡ is_over self cause seen }
    {
        us_from(cause, seen) > self.most
    }

    /// Whether it is in front of it, by more than it may be.
    pub(crate) fn is_ahead(self, cause: u64, seen: u64) -> bool
        ensures { result ≡ is_ahead self cause seen }
    {
        us_from(seen, cause) > self.early
    }

    /// Whether it is in the window.
    pub(crate) fn has(self, cause: u64, seen: u64) -> bool
        ensures { result ≡ has self cause seen }
    {
        !self.is_over(cause, seen)
            && (!self.is_ahead(cause, seen) && is_past(self.after, us_from(cause, seen)))
    }
}
