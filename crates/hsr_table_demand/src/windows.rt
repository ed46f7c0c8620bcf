//! How crowded the windows of moments are.
ghost use Rattle.std.specs.Prelude.{ℕ, ◌≡◌, ◌-◌, ◌*◌, ◌≤◌, nat_lt, length, count_by, IfErr, IfOk};
ghost use Rattle.std.specs.List.Sorted.{IsNonDecreasing};
ghost use Rattle.hsr_duptable.specs.Notes.{entry_forget};
ghost use Rattle.hsr_table_demand.specs.Windows.{IsFirstOver, IsMostBelow, crowd_in, most_in};

use hsr_duptable::ENTRY_FORGET;

/// How long a window is, in microseconds: twice the time for which a frame is remembered.
// Between the note of a send and a copy in time stand only notes of sends less than 400 ms before or behind that send.
const WINDOW: u64 = 2 * ENTRY_FORGET;

/// How many of these moments come before one.
/// The moments rise.
fn count_before(moments: &[u64], start: u64) -> usize
    requires { IsNonDecreasing moments.now }
    ensures { result ≡ count_by (λ m. nat_lt m start) moments.now }
{
    // Moments rise, so a search finds the border, where a count would look at each.
    moments.partition_point(|moment| *moment < start)
}

/// How many of these moments come before the end of the window from one on.
fn count_until_end(moments: &[u64], start: u64) -> usize
    requires { IsNonDecreasing moments.now }
    ensures { result ≡ count_by (λ m. nat_lt (m - start) (2 * entry_forget)) moments.now }
{
    // No sum is made: a window may end after the last moment that there is.
    moments.partition_point(|moment| moment.saturating_sub(start) < WINDOW)
}

/// How many of these moments lie in the window from one on.
fn crowd_in(moments: &[u64], start: u64) -> usize
    requires { IsNonDecreasing moments.now }
    ensures { result ≡ crowd_in moments.now start }
{
    count_until_end(moments, start) - count_before(moments, start)
}

/// The most of these moments, in microseconds and rising, that lie in the 800 milliseconds from one of them on; or the
/// first of them from which on there are more than there is room for.
pub fn most_crowded(room: usize, moments: &[u64]) -> Result<usize, u64>
    requires { IsNonDecreasing moments.now }
    ensures most { IfOk result (λ most. IsMostBelow moments.now (length moments.now) most) }
    ensures room { IfOk result (λ most. most ≤ room) }
    ensures crowded { IfErr result (IsFirstOver room moments.now) }
{
    let mut most = 0;
    for start in moments {
        let count = crowd_in(moments, *start);
        if count > room {
            return Err(*start);
        }
        most = most.max(count);
    }
    Ok(most)
}

/// The most of these moments, in microseconds and rising, that lie in any 800 milliseconds; 0 where there are none.
pub fn most_of(moments: &[u64]) -> usize
    requires { IsNonDecreasing moments.now }
    ensures most { result ≡ most_in moments.now }
    ensures reached { IsMostBelow moments.now (length moments.now) result }
    ensures any { (start : ℕ) → crowd_in moments.now start ≤ result }
{
    let mut most = 0;
    // Windows that begin at a moment are enough: any other holds no more than the next one that does.
    for start in moments {
        most = most.max(crowd_in(moments, *start));
    }
    most
}
