//! How many addresses are known, and for how long; times are in microseconds (IEC 62439-3 clause 5.8).
ghost use Rattle.std.specs.Prelude.{◌≡◌};
ghost use Rattle.hsr_tables.specs.Known.{is_young};

/// An address is forgotten this many microseconds after it was heard last (NodeForgetTime and
/// ProxyNodeTableForgetTime, IEC 62439-3 clause 5.8).
pub const NODE_FORGET: u64 = 60_000_000;

/// A node sends a supervision frame every two seconds, here in microseconds (LifeCheckInterval, IEC 62439-3
/// clause 5.8).
pub const LIFE_CHECK: u64 = 2_000_000;

/// A table keeps what was heard of 64 addresses at most (this profile's choice).
pub const ROW_LIMIT: usize = 64;

/// Whether what was heard at one moment isn't forgotten at another, both in microseconds.
pub fn is_known_at(heard: u64, at: u64) -> bool
    ensures { result ≡ is_young at heard }
{
    // A difference and no sum: `heard + NODE_FORGET` may overflow.
    at.saturating_sub(heard) < NODE_FORGET
}
