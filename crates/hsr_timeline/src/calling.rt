//! The node that a word names.
ghost use Rattle.std.specs.Prelude.{◌≡◌, position};
ghost use Rattle.std.specs.Option.{option_and_then};
ghost use Rattle.std.specs.Str.{bytes_eq};
ghost use Rattle.hsr_timeline.specs.Fronts.{lists_of};
ghost use Rattle.hsr_timeline.specs.Names.{node_called, number_called, unnamed};

use hsr_text::decimal;

/// The node with a name.
fn node_with(names: &[Vec<u8>], word: &[u8]) -> Option<usize>
    ensures { result ≡ position (λ name. bytes_eq name.items word.now) names.now }
{
    names.iter().position(|name| name.as_slice() == word)
}

/// The number that stands behind an `n`.
fn number_called(word: &[u8]) -> Option<u64>
    ensures { result ≡ number_called word.now }
{
    match word {
        [b'n', digits @ ..] => decimal(digits),
        _ => None,
    }
}

/// The node of a number, if it has no name.
#[tactic(auto, using(crate::proofs::Named::long_same))]
fn unnamed(names: &[Vec<u8>], number: Option<u64>) -> Option<usize>
    ensures { result ≡ option_and_then (unnamed (lists_of names.now)) number }
{
    match number {
        // A node that has a name isn't called by its number, so that a word names one node.
        Some(number) if number >= names.len() as u64 => Some(number as usize),
        _ => None,
    }
}

/// The node that a word names: the first that has it as name, or by `n` and its number one that has no name.
/// The number is decimal, without leading zeros. Whether there is a node of that number isn't asked.
pub fn node_called(names: &[Vec<u8>], word: &[u8]) -> Option<usize>
    ensures { result ≡ node_called (lists_of names.now) word.now }
{
    // Names come first: a node may be called `n7` and not be number 7.
    node_with(names, word).or(unnamed(names, number_called(word)))
}
