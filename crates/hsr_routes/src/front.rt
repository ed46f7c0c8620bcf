//! What a search has found.
ghost use Rattle.std.specs.Prelude.{◌≡◌, ◌==◌, ◌<◌, ◌&&◌, not, false, true, ℕ, if◌then◌else◌, IfNone, IfSome};
ghost use Rattle.hsr_bitset.specs.Numbers.{has};
ghost use Rattle.hsr_routes.specs.Spread.{IsPut, IsTakenOut};

use hsr_bitset::Numbers;

/// The channels that a search has found, and those of them from which it has still to go on, by their numbers.
#[derive(Clone, Copy)]
pub(crate) struct Front {
    pub(crate) found: Numbers,
    pub(crate) waiting: Numbers,
}

impl Front {
    /// Nothing is found.
    pub(crate) fn new() -> Front
        ensures found { (n : ℕ) → has result.found n ≡ false }
        ensures waiting { (n : ℕ) → has result.waiting n ≡ false }
    {
        Front {
            found: Numbers::new(),
            waiting: Numbers::new(),
        }
    }

    /// Puts a number among those that are found, if it is one and isn't there: then it waits, too.
    pub(crate) fn put(&mut self, is_one: bool, number: usize)
        requires { number < 512 }
        ensures { IsPut is_one number self.old.found self.old.waiting self.new.found
            self.new.waiting }
    {
        // What was found before doesn't wait once more, so each channel is gone on from once.
        if is_one && !self.found.has(number) {
            self.found.put(number, true);
            self.waiting.put(number, true);
        }
    }

    /// Takes the lowest number from those that wait, if there is one.
    pub(crate) fn next(&mut self) -> Option<usize>
        ensures found { self.new.found ≡ self.old.found }
        ensures taken { IfSome result (λ n. IsTakenOut n self.old.waiting self.new.waiting) }
        ensures none { IfNone result ((n : ℕ) → n < 512 → has self.old.waiting n ≡ false) }
    {
        let number = self.waiting.lowest()?;
        self.waiting.put(number, false);
        Some(number)
    }
}
