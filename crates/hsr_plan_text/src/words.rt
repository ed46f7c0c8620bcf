//! The words that texts of a plan spell.
ghost use Rattle.std.specs.Prelude.{◌≡◌, option_map};
ghost use Rattle.std.specs.List.{list_all};
ghost use Rattle.hsr_plan_text.specs.Words.{hop_of, is_element, is_element_octet, is_id, is_title, is_visible, kind_named, last_number, moves_of, switching_of};
ghost use Rattle.hsr_plan_text.specs.declared.plan.Moves.TheVariants.{Timed};
ghost use Rattle.hsr_plan_text.specs.declared.plan.Transfer.TheVariants.{Hop};

use crate::plan::{Kind, Moves, Switching, Transfer};
use hsr_text::{decimal, word};

/// The most microseconds from a copy's put to its judgement.
pub(crate) const HOP_LIMIT: u64 = 1_000_000;

/// Whether a text has no control characters.
pub(crate) fn is_title(text: &[u8]) -> bool
    ensures { result ≡ is_title text.now }
{
    // Octets from 128 on are parts of letters, and stay.
    text.iter().all(|b| *b >= 32 && *b != 127)
}

/// The most octets of the name of a control block or a data set.
const ELEMENT_LIMIT: usize = 32;

/// The most octets of an id.
const ID_LIMIT: usize = 65;

/// Whether the name of a control block or a data set may have that octet.
fn is_element_octet(b: u8) -> bool
    ensures { result ≡ is_element_octet b }
{
    b.is_ascii_lowercase() || b.is_ascii_uppercase() || b.is_ascii_digit() || b == b'_'
}

/// Whether the name of a control block or a data set may have these octets.
fn are_element_octets(text: &[u8]) -> bool
    ensures { result ≡ list_all is_element_octet text.now }
{
    text.iter().all(|b| is_element_octet(*b))
}

/// Whether a text is a name of a control block or a data set.
pub(crate) fn is_element(text: &[u8]) -> bool
    ensures { result ≡ is_element text.now }
{
    are_element_octets(text) && !text.is_empty() && text.len() <= ELEMENT_LIMIT
}

/// Whether an octet is a visible character.
fn is_visible(b: u8) -> bool
    ensures { result ≡ is_visible b }
{
    b >= 33 && b <= 126
}

/// Whether octets are visible characters.
fn are_visible(text: &[u8]) -> bool
    ensures { result ≡ list_all is_visible text.now }
{
    text.iter().all(|b| is_visible(*b))
}

/// Whether a text is an id.
pub(crate) fn is_id(text: &[u8]) -> bool
    ensures { result ≡ is_id text.now }
{
    are_visible(text) && !text.is_empty() && text.len() <= ID_LIMIT
}

/// The number that is the last word.
fn last_number(rest: Option<&[u8]>) -> Option<u64>
    ensures { result ≡ last_number (option_map (λ s. s.now) rest.entry) }
{
    match word(rest) {
        Some((digits, None)) => decimal(digits),
        _ => None,
    }
}

/// The microseconds of the words `hop_us = N`.
#[tactic(auto, unfolding(crate::specs::Words::hop_of))]
fn hop_of(text: &[u8]) -> Option<u64>
    ensures { result ≡ hop_of text.now }
{
    let (key, rest) = word(Some(text))?;
    let (sign, rest) = word(rest)?;
    let hop = last_number(rest)?;
    if key == b"hop_us".as_slice() && sign == b"=".as_slice() && hop >= 1 && hop <= HOP_LIMIT {
        Some(hop)
    } else {
        None
    }
}

/// That copies move by hops, by its words: so plans told it before `hop_us` was a key.
fn moves_by_hops(text: &[u8]) -> Option<Moves>
    ensures { result ≡ option_map (λ hop. Timed (Hop hop)) (hop_of text.now) }
{
    match hop_of(text) {
        Some(hop) => Some(Moves::Timed(Transfer::Hop(hop))),
        None => None,
    }
}

/// How copies move, by words that tell it without another key.
pub(crate) fn moves_of(word: &str) -> Option<Moves>
    ensures { result ≡ moves_of word.now }
{
    match word {
        // Whole phrases, so that a plan reads as a sentence and no other spelling is taken.
        "each send drains" => Some(Moves::EachSendDrains),
        "each moment drains" => Some(Moves::EachMomentDrains),
        _ => moves_by_hops(word.as_bytes()),
    }
}

/// The kind of payload of that name.
pub(crate) fn kind_named(word: &str) -> Option<Kind>
    ensures { result ≡ kind_named word.now }
{
    match word {
        "goose" => Some(Kind::Goose),
        "sv" => Some(Kind::SampledValues),
        _ => None,
    }
}

/// The switching of that name.
pub(crate) fn switching_of(word: &str) -> Option<Switching>
    ensures { result ≡ switching_of word.now }
{
    match word {
        "store" => Some(Switching::Store),
        "cut" => Some(Switching::Cut),
        _ => None,
    }
}
