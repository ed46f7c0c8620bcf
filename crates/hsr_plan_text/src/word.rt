//! A word of a plan.
ghost use Rattle.std.specs.Prelude.{◌≡◌, IfOk};
ghost use Rattle.std.specs.Str.{bytes_eq};

use hsr_frame::NoMemory;
use std::alloc::Global;
use std::marker::Model;

/// A word of a plan: the name of a node, or a key.
#[derive(Drop)]
pub struct Word {
    octets: Vec<u8>,
}

impl Model for Word {
    ghost use Rattle.std.specs.Prelude.{ℕ, List};

    ghost Value = { List ℕ };

    ghost view = { λ w. w.octets.items };
}

impl Word {
    /// A word of these octets. `NoMemory` if allocation fails.
    pub fn of(alloc: Global, text: &[u8]) -> Result<Word, NoMemory>
        ensures { IfOk result (λ w. w ≡ text.now) }
    {
        let mut octets = Vec::new(alloc);
        octets.extend_from_slice(text)?;
        Ok(Word { octets })
    }

    /// The same word again. `NoMemory` if allocation fails.
    pub fn copy(&self, alloc: Global) -> Result<Word, NoMemory>
        ensures { IfOk result (λ w. w ≡ self.now) }
    {
        Word::of(alloc, self.as_bytes())
    }

    /// The octets of the word, as they stand in the text.
    pub fn as_bytes(&self) -> &[u8]
        ensures { result.now ≡ self.now }
    {
        self.octets.as_slice()
    }

    /// Whether a word is this one.
    pub fn is(&self, other: &Word) -> bool
        ensures { result ≡ bytes_eq self.now other.now }
    {
        self.as_bytes() == other.as_bytes()
    }
}
