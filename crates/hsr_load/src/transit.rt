//! A copy that a channel carried.
ghost use Rattle.std.specs.Prelude.{◌≡◌, ◌+◌, IfOk};
ghost use Rattle.std.specs.List.{sum_by};
ghost use Rattle.hsr_load.specs.Windows.{octets_of};

use hsr_frame::NoMemory;

/// A copy that a channel carried: the effective moment of the entry that passed it, in microseconds, and its octets on the wire.
#[derive(Clone, Copy, PartialEq, Eq)]
pub struct Transit {
    pub moment: u64,
    pub octets: u64,
}

/// A sum with one more term. More octets than a number counts don't fit into memory.
pub(crate) fn more(sum: u64, octets: u64) -> Result<u64, NoMemory>
    ensures { IfOk result (λ n. n ≡ sum + octets) }
{
    match sum.checked_add(octets) {
        Some(n) => Ok(n),
        None => Err(NoMemory),
    }
}

/// The octets of all copies.
pub(crate) fn octets_of(transits: &[Transit]) -> Result<u64, NoMemory>
    ensures { IfOk result (λ n. n ≡ sum_by octets_of transits.now) }
{
    let mut sum = 0;
    for transit in transits {
        sum = more(sum, transit.octets)?;
    }
    Ok(sum)
}
