//! The names of nodes.
ghost use Rattle.std.specs.Prelude.{◌≡◌};
ghost use Rattle.hsr_scenario.specs.Fallible.{Gives};

use crate::fault::What;
use std::alloc::Global;
use std::marker::Model;

/// The name of a node.
#[derive(Drop)]
pub(crate) struct Name {
    text: String,
}

impl Model for Name {
    ghost use Rattle.std.specs.Prelude.{ℕ, List, string_bytes};

    ghost Value = { List ℕ };

    ghost view = { λ n. string_bytes n.text };
}

impl Name {
    /// A name of this text.
    pub(crate) fn from_str(alloc: Global, text: &str) -> Result<Name, What>
        ensures { Gives (λ n. n) result (Ok text.now) }
    {
        match String::from_str(alloc, text) {
            Ok(text) => Ok(Name { text }),
            // A text is refused for memory alone.
            Err(_) => Err(What::NoMemory),
        }
    }

    pub(crate) fn as_str(&self) -> &str
        ensures { result.now ≡ self.now }
    {
        self.text.as_str()
    }

    pub(crate) fn as_bytes(&self) -> &[u8]
        ensures { result.now ≡ self.now }
    {
        self.text.as_bytes()
    }
}
