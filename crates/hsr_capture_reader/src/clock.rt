//! The stamps of an interface, as moments.
ghost use Rattle.std.specs.Prelude.{◌≡◌, ◌-◌, ◌<◌, ◌^◌, min};
ghost use Rattle.hsr_capture_reader.specs.Clock.{moment_of, moved_by, nanoseconds};

/// How an interface stamps its packets (draft-ietf-opsawg-pcapng, section 4.2).
#[derive(Clone, Copy, PartialEq, Eq)]
pub struct Clock {
    /// As `if_tsresol` has it: below 128, stamps count seconds over this power of ten; from 128 on, over the power of two that is
    /// 128 less.
    pub resolution: u8,
    /// As `if_tsoffset` has it: so many seconds are added to each stamp; from 2^63 on it is 2^64 more than a negative number.
    pub offset: u64,
}

/// How many nanoseconds so many ticks of a resolution are, rounded down.
#[tactic(auto, using(crate::proofs::Powers::ten_fits, crate::proofs::Powers::ten_is_positive, crate::proofs::Powers::too_fine))]
fn nanoseconds(resolution: u8, ticks: u64) -> u128
    ensures value { result ≡ nanoseconds resolution ticks }
    ensures fits { result < 2 ^ 94 }
{
    let parts = u128::from(ticks) * 1_000_000_000;
    if resolution >= 128 {
        return parts >> u32::from(resolution - 128);
    }
    if resolution > 28 {
        // All stamps are below 10^29 parts.
        return 0;
    }
    parts / 10u128.pow(u32::from(resolution))
}

/// So many nanoseconds, moved by an offset.
fn moved_by(offset: u64, n: u128) -> u128
    requires { n < 2 ^ 94 }
    ensures { result ≡ moved_by offset n }
{
    if offset < 0x8000_0000_0000_0000 {
        n + u128::from(offset) * 1_000_000_000
    } else {
        let back = u64::MAX - offset + 1;
        n.saturating_sub(u128::from(back) * 1_000_000_000)
    }
}

/// A number, or the greatest one of 64 bits.
fn capped(n: u128) -> u64
    ensures { result ≡ min (2 ^ 64 - 1) n }
{
    match u64::try_from(n) {
        Ok(n) => n,
        Err(_) => u64::MAX,
    }
}

impl Clock {
    /// The moment of a stamp: nanoseconds since 1970, rounded down. What comes before counts as 0, and what comes after 2^64 - 1
    /// as that.
    #[tactic(auto, unfolding(crate::specs::Clock::moment_of))]
    pub fn moment(&self, ticks: u64) -> u64
        ensures { result ≡ moment_of self.now ticks }
    {
        capped(moved_by(self.offset, nanoseconds(self.resolution, ticks)))
    }
}
