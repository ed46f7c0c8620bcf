//! The unit in which a text tells its moments.
ghost use Rattle.std.specs.Prelude.{◌≡◌, IfSome, Some};
ghost use Rattle.hsr_text.specs.Moments.{moment_in, moment_of, whole_units, unit_of, unit_word};

use crate::words::decimal;

/// How many microseconds a millisecond has.
const MICROSECONDS: u64 = 1000;

/// The unit in which a text tells its moments.
#[derive(Clone, Copy, PartialEq, Eq)]
pub enum TimeUnit {
    Milliseconds,
    Microseconds,
}

impl TimeUnit {
    /// Its word, `ms` or `us`.
    pub fn word(self) -> &'static str
        ensures { result.now ≡ unit_word self }
    {
        match self {
            TimeUnit::Milliseconds => "ms",
            TimeUnit::Microseconds => "us",
        }
    }

    /// The unit whose word this is.
    #[tactic(auto, using(crate::proofs::Units::unit_again))]
    pub fn from_word(word: &[u8]) -> Option<TimeUnit>
        ensures value { result ≡ unit_of word.now }
        ensures again { (unit : TimeUnit) → unit_of (unit_word unit) ≡ Some unit }
        ensures exact { IfSome result (λ unit. word.now ≡ unit_word unit) }
    {
        // Both sides of `==` have one type, so an octet literal is compared as a slice.
        if word == b"ms".as_slice() {
            Some(TimeUnit::Milliseconds)
        } else if word == b"us".as_slice() {
            Some(TimeUnit::Microseconds)
        } else {
            None
        }
    }

    /// A moment of this unit in microseconds, where they are fewer than 2^64.
    pub fn moment(self, at: u64) -> Option<u64>
        ensures { result ≡ moment_in self at }
    {
        match self {
            TimeUnit::Milliseconds => at.checked_mul(MICROSECONDS),
            TimeUnit::Microseconds => Some(at),
        }
    }

    /// A moment in microseconds as this unit tells it; what is less than one of the unit is left out.
    pub fn whole_units(self, at: u64) -> u64
        ensures { result ≡ whole_units self at }
    {
        match self {
            TimeUnit::Milliseconds => at / MICROSECONDS,
            TimeUnit::Microseconds => at,
        }
    }

    /// The moment in microseconds that a word of a text in this unit spells: a decimal number without sign or leading zeros.
    pub fn read(self, word: &[u8]) -> Option<u64>
        ensures { result ≡ moment_of self word.now }
    {
        self.moment(decimal(word)?)
    }
}
