//! Sets of channels.
ghost use Rattle.std.specs.Prelude.{◌≡◌, ◌==◌, ◌<◌, ◌≤◌, ◌*◌, ◌/◌, ◌&&◌, ◌||◌, ◌↔◌, not, ℕ, true, false, if◌then◌else◌, length, IsTrue, IfNone, IfSome};
ghost use Rattle.hsr_bitset.specs.Numbers.{has, has_bit, IsLowest};
ghost use Rattle.hsr_faults.specs.Sets.{IsTaken, IsWithin, Meet};

// Two channels for each of 128 links, which a topology has at most.
/// How many words a set has.
const WORDS: usize = 4;

/// A set of channels, by their numbers, which are below 256: a bit for each.
#[derive(Clone, Copy, PartialEq, Eq)]
pub(crate) struct Channels {
    pub(crate) words: [u64; WORDS],
}

/// A word with a bit set or cleared.
fn with_bit(word: u64, bit: usize, is_in: bool) -> u64
    requires { bit < 64 }
    ensures { (i : ℕ) → i < 64 → has_bit result i ≡ (if i == bit then is_in else has_bit word i) }
{
    if is_in {
        word | 1 << bit
    } else {
        word & !(1 << bit)
    }
}

/// Whether a bit is set.
fn has_bit(word: u64, bit: usize) -> bool
    requires { bit < 64 }
    ensures { result ≡ has_bit word bit }
{
    word >> bit & 1 == 1
}

/// The lowest number of these words, if there is one.
fn lowest_of(words: &[u64]) -> Option<usize>
    requires { length words.now ≤ 4 }
    ensures { IsLowest (64 * length words.now) words.now result }
{
    for (index, word) in words.iter().enumerate() {
        if *word != 0 {
            return Some(64 * index + word.trailing_zeros() as usize);
        }
    }
    None
}

impl Channels {
    /// The set that has no channel.
    pub(crate) fn new() -> Channels
        ensures { (n : ℕ) → has result.words n ≡ false }
    {
        Channels { words: [0; WORDS] }
    }

    /// Lets a channel be in the set or not.
    pub(crate) fn put(&mut self, number: usize, is_in: bool)
        requires { number < 256 }
        ensures { (n : ℕ) → has self.new.words n ≡ (if n == number then is_in else has self.old.words n) }
    {
        let index = number / 64;
        self.words[index] = with_bit(self.words[index], number % 64, is_in);
    }

    /// Whether a channel is in the set.
    pub(crate) fn has(&self, number: usize) -> bool
        requires { number < 256 }
        ensures { result ≡ has self.now.words number }
    {
        has_bit(self.words[number / 64], number % 64)
    }

    /// The channels that are in this set or in another.
    pub(crate) fn with(&self, other: &Channels) -> Channels
        ensures { (n : ℕ) → has result.words n ≡ (has self.now.words n || has other.now.words n) }
    {
        Channels {
            words: [
                self.words[0] | other.words[0],
                self.words[1] | other.words[1],
                self.words[2] | other.words[2],
                self.words[3] | other.words[3],
            ],
        }
    }

    /// The channels that are in this set and not in another.
    pub(crate) fn without(&self, other: &Channels) -> Channels
        ensures { (n : ℕ) → has result.words n ≡ (has self.now.words n && not (has other.now.words n)) }
    {
        Channels {
            words: [
                self.words[0] & !other.words[0],
                self.words[1] & !other.words[1],
                self.words[2] & !other.words[2],
                self.words[3] & !other.words[3],
            ],
        }
    }

    /// The channels that are in both sets.
    fn both(&self, other: &Channels) -> Channels
        ensures { (n : ℕ) → has result.words n ≡ (has self.now.words n && has other.now.words n) }
    {
        Channels {
            words: [
                self.words[0] & other.words[0],
                self.words[1] & other.words[1],
                self.words[2] & other.words[2],
                self.words[3] & other.words[3],
            ],
        }
    }

    /// Whether a channel is in both sets.
    pub(crate) fn meets(&self, other: &Channels) -> bool
        ensures { IsTrue result ↔ Meet self.now.words other.now.words }
    {
        lowest_of(&self.both(other).words).is_some()
    }

    /// Whether all channels of this set are in another.
    pub(crate) fn is_within(&self, other: &Channels) -> bool
        ensures { IsTrue result ↔ IsWithin self.now.words other.now.words }
    {
        lowest_of(&self.without(other).words).is_none()
    }

    /// Takes the lowest channel out of the set, if there is one.
    pub(crate) fn take(&mut self) -> Option<usize>
        ensures taken { IfSome result (λ n. IsTaken n self.old.words self.new.words) }
        ensures none { IfNone result ((n : ℕ) → has self.old.words n ≡ false) }
    {
        let number = lowest_of(&self.words)?;
        self.put(number, false);
        Some(number)
    }
}
