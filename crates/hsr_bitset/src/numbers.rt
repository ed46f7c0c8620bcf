//! Sets of numbers below 512.
ghost use Rattle.std.specs.Prelude.{◌≡◌, ◌==◌, ◌<◌, ◌≤◌, ◌*◌, ℕ, true, false, if◌then◌else◌, length};
ghost use Rattle.std.specs.Int.{bit_at};
ghost use Rattle.hsr_bitset.specs.Numbers.{has, has_bit, IsLowest};

use std::marker::Model;

// 512 is the number of ports that 64 nodes may have, 8 for each. Channels of links are no more: two for each of 256.
/// How many words a set has.
const WORDS: usize = 8;

/// A set of numbers below 512, a bit for each. A clause sees its words of 64 bits, of which `has` tells the numbers.
#[derive(Clone, Copy)]
pub struct Numbers {
    words: [u64; WORDS],
}

/// The word in which a bit is set or cleared.
fn with_bit(word: u64, bit: usize, is_in: bool) -> u64
    requires { bit < 64 }
    ensures { (i : ℕ) → i < 64 → has_bit result i ≡ (if i == bit then is_in else has_bit word i) }
{
    if is_in {
        word | 1 << bit
    } else {
        word & !(1 << bit)
    }
}

/// Whether a bit is set.
fn has_bit(word: u64, bit: usize) -> bool
    requires { bit < 64 }
    ensures { result ≡ has_bit word bit }
{
    word >> bit & 1 == 1
}

/// Whether words have no number.
fn are_empty(words: &[u64]) -> bool
    ensures { result ≡ true → (n : ℕ) → has words.now n ≡ false }
{
    let mut all = 0;
    for word in words {
        // No branch in the loop, so that it is one of vectors.
        all |= *word;
    }
    all == 0
}

/// The lowest number of these words, if there is one.
fn lowest_of(words: &[u64]) -> Option<usize>
    requires { length words.now ≤ 8 }
    ensures { IsLowest (64 * length words.now) words.now result }
{
    for (index, word) in words.iter().enumerate() {
        // An empty word has no lowest bit: it is passed over whole.
        if *word != 0 {
            return Some(64 * index + word.trailing_zeros() as usize);
        }
    }
    None
}

impl Model for Numbers {
    ghost use Rattle.std.specs.Prelude.{ℕ, List};

    ghost Value = { List ℕ };

    ghost view = { λ s. s.words };

    ghost inverse = { λ words. record { words = words } };
}

impl Numbers {
    /// The set that has no number.
    pub fn new() -> Numbers
        ensures { (n : ℕ) → has result n ≡ false }
    {
        Numbers { words: [0; WORDS] }
    }

    /// Lets a number be in the set or not.
    /// A number that is in already, or out already, changes nothing.
    pub fn put(&mut self, number: usize, is_in: bool)
        requires { number < 512 }
        ensures { (n : ℕ) → n < 512 → has self.new n
            ≡ (if n == number then is_in else has self.old n) }
    {
        let index = number / 64;
        self.words[index] = with_bit(self.words[index], number % 64, is_in);
    }

    /// Whether a number is in the set.
    pub fn has(&self, number: usize) -> bool
        requires { number < 512 }
        ensures { result ≡ has self.now number }
    {
        has_bit(self.words[number / 64], number % 64)
    }

    /// The lowest number, if there is one.
    pub fn lowest(&self) -> Option<usize>
        ensures { IsLowest 512 self.now result }
    {
        // Asked first: of the sets of a drain all but one are mostly empty, and those of small worlds have no number behind the first word.
        if self.words[0] == 0 && are_empty(&self.words) {
            return None;
        }
        lowest_of(&self.words)
    }
}
