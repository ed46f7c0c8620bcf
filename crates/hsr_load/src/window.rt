//! The worst millisecond of a channel.
ghost use Rattle.std.specs.Prelude.{◌≡◌, ◌≤◌, length, take, IfOk, IsPermutation};
ghost use Rattle.std.specs.List.{sum_by};
ghost use Rattle.std.specs.List.Sorted.{IsNonDecreasingBy};
ghost use Rattle.hsr_load.specs.Sums.{AreSums, octets_before, octets_until, worse};
ghost use Rattle.hsr_load.specs.Windows.{IsWorstIf, moment_in, octets_from, octets_of};

use crate::transit::{Transit, more};
use hsr_frame::NoMemory;
use std::alloc::Global;

/// How long a window is, in microseconds.
const MILLISECOND: u64 = 1000;

/// The octets of the copies that go in a millisecond, and the moment at which it begins.
#[derive(Clone, Copy, PartialEq, Eq)]
pub struct Window {
    pub octets: u64,
    pub at: u64,
}

/// The octets of the first copies: of none, of one, and so on up to all.
fn sums(alloc: Global, transits: &[Transit]) -> Result<Vec<u64>, NoMemory>
    ensures { IfOk result (λ sums. AreSums transits.now (length transits.now) sums.items) }
{
    let mut sums = Vec::new(alloc);
    let mut sum = 0;
    sums.push(sum)?;
    for transit in transits {
        let next = more(sum, transit.octets)?;
        sums.push(next)?;
        sum = next;
    }
    Ok(sums)
}

/// How many copies go before a moment.
fn count_before(transits: &[Transit], start: u64) -> usize
    requires { IsNonDecreasingBy moment_in transits.now }
    ensures below { result ≤ length transits.now }
    ensures sum { sum_by octets_of (take result transits.now)
        ≡ sum_by (octets_before start) transits.now }
{
    // Moments rise, so a search finds the border, where a sum would look at each.
    transits.partition_point(|transit| transit.moment < start)
}

/// How many copies go before the end of the millisecond from a moment on.
fn count_until(transits: &[Transit], start: u64) -> usize
    requires { IsNonDecreasingBy moment_in transits.now }
    ensures below { result ≤ length transits.now }
    ensures sum { sum_by octets_of (take result transits.now)
        ≡ sum_by (octets_until start) transits.now }
{
    // No sum is made: a window may end after the last moment that there is.
    transits.partition_point(|transit| transit.moment.saturating_sub(start) < MILLISECOND)
}

/// The octets of the first copies, up to this many.
fn sum_at(transits: &[Transit], sums: &[u64], count: usize) -> u64
    requires below { count ≤ length transits.now }
    requires sums { AreSums transits.now (length transits.now) sums.now }
    ensures { result ≡ sum_by octets_of (take count transits.now) }
{
    sums[count]
}

/// The octets of the copies that go in the millisecond from a moment on.
fn octets_from(transits: &[Transit], sums: &[u64], start: u64) -> u64
    requires rise { IsNonDecreasingBy moment_in transits.now }
    requires sums { AreSums transits.now (length transits.now) sums.now }
    ensures { result ≡ octets_from transits.now start }
{
    let until = sum_at(transits, sums, count_until(transits, start));
    let before = sum_at(transits, sums, count_before(transits, start));
    until - before
}

/// The worse of two, of equals the first.
fn worse(worst: Option<Window>, window: Window) -> Window
    ensures { result ≡ worse worst window }
{
    match worst {
        Some(worst) if window.octets <= worst.octets => worst,
        _ => window,
    }
}

/// The millisecond from a copy's moment on in which the most octets go, of equals the first; none where there are no copies.
/// The moments of copies rise.
fn worst_of_rising(alloc: Global, transits: &[Transit]) -> Result<Option<Window>, NoMemory>
    requires { IsNonDecreasingBy moment_in transits.now }
    ensures { IfOk result (IsWorstIf transits.now) }
{
    let sums = sums(alloc, transits)?;
    let mut worst = None;
    for transit in transits {
        let octets = octets_from(transits, sums.as_slice(), transit.moment);
        let at = transit.moment;
        let next = worse(worst, Window { octets, at });
        worst = Some(next);
    }
    Ok(worst)
}

/// Puts copies into the order of their moments.
fn sort(transits: &mut Vec<Transit>)
    ensures rise { IsNonDecreasingBy moment_in transits.new.items }
    ensures same { IsPermutation transits.old.items transits.new.items }
{
    // Only sums are taken of copies that go at one moment, so their order doesn't matter.
    transits.sort_unstable_by_key(|transit| transit.moment);
}

/// The copies in a list of their own.
fn owned(alloc: Global, transits: &[Transit]) -> Result<Vec<Transit>, NoMemory>
    ensures { IfOk result (λ list. list.items ≡ transits.now) }
{
    let mut list = Vec::new(alloc);
    list.extend_from_slice(transits)?;
    Ok(list)
}

/// The copies in the order of their moments.
fn rising(alloc: Global, transits: &[Transit]) -> Result<Vec<Transit>, NoMemory>
    ensures rise { IfOk result (λ list. IsNonDecreasingBy moment_in list.items) }
    ensures same { IfOk result (λ list. IsPermutation transits.now list.items) }
{
    let mut list = owned(alloc, transits)?;
    sort(&mut list);
    Ok(list)
}

/// The millisecond from a copy's moment on in which the most octets go, of equals the first; none where there are no copies.
pub(crate) fn worst_of(alloc: Global, transits: &[Transit]) -> Result<Option<Window>, NoMemory>
    ensures { IfOk result (IsWorstIf transits.now) }
{
    let list = rising(alloc, transits)?;
    worst_of_rising(alloc, list.as_slice())
}
