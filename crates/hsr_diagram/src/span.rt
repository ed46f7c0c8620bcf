//! Moments from one to another.
ghost use Rattle.std.specs.Prelude.{◌≡◌};
ghost use Rattle.hsr_diagram.specs.Wanted.{is_in, is_reversed};

/// Moments in microseconds: from one on, if it is given, and until another, if that is; both are of it.
#[derive(Clone, Copy, PartialEq, Eq)]
pub struct Span {
    pub from: Option<u64>,
    pub until: Option<u64>,
}

impl Span {
    /// Whether it ends before it begins.
    pub fn is_reversed(self) -> bool
        ensures { result ≡ is_reversed self }
    {
        match (self.from, self.until) {
            (Some(from), Some(until)) => until < from,
            _ => false,
        }
    }

    /// Whether a moment is of it.
    pub fn has(self, moment: u64) -> bool
        ensures { result ≡ is_in self moment }
    {
        let begun = match self.from {
            Some(from) => from <= moment,
            None => true,
        };
        let ended = match self.until {
            Some(until) => until < moment,
            None => false,
        };
        begun && !ended
    }
}
