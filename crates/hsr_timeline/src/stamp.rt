//! A moment and a step.
ghost use Rattle.std.specs.Prelude.{◌≡◌};
ghost use Rattle.hsr_timeline.specs.Stamps.{is_earlier, later};

/// When an entry took place: its moment in microseconds, the greatest of its own and of those that it follows; and its step
/// within that moment, the length of the longest chain of entries that lead to it there.
#[derive(Clone, Copy, PartialEq, Eq)]
pub struct Stamp {
    pub moment: u64,
    pub step: u64,
}

impl Stamp {
    /// Whether it comes before another: by moment, then by step.
    pub fn is_earlier(self, other: Stamp) -> bool
        ensures { result ≡ is_earlier self other }
    {
        self.moment < other.moment || (self.moment == other.moment && self.step < other.step)
    }

    /// The later of two.
    pub(crate) fn later(self, other: Stamp) -> Stamp
        ensures { result ≡ later self other }
    {
        if self.is_earlier(other) { other } else { self }
    }
}
