//! How long octets take on a wire.
ghost use Rattle.std.specs.Prelude.{◌≡◌, ◌≤◌};
ghost use Rattle.hsr_wire.specs.Time.{time_of};

/// How many microseconds a wire of `rate` Mbit/s takes for so many octets, rounded up. A time of 2^61 microseconds or more, which no
/// frame takes, isn't told exactly.
pub fn time_of(rate: u64, octets: u64) -> u64
    requires { 1 ≤ rate }
    ensures { result ≡ time_of rate octets }
{
    // A megabit a second is a bit a microsecond.
    octets.saturating_mul(8).div_ceil(rate)
}
