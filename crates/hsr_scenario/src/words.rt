//! The words that texts of a scenario spell.
ghost use Rattle.std.specs.Prelude.{◌≡◌, ◌++◌, option_map};
ghost use Rattle.hsr_scenario.specs.Words.{deed_of, end_of};

use hsr_text::split_at;
use hsr_toml::{is_name, is_port_letter};

/// What a step does.
#[derive(Clone, Copy, PartialEq, Eq)]
pub(crate) enum Deed {
    Clock,
    Send,
    Life,
    Age,
    Put,
    Judge,
    Take,
    Cut,
    Mend,
    Inject,
    Drain,
}

/// What a step of this word does.
pub(crate) fn deed_of(word: &str) -> Option<Deed>
    ensures { result ≡ deed_of word.now }
{
    match word {
        "clock" => Some(Deed::Clock),
        "send" => Some(Deed::Send),
        "life" => Some(Deed::Life),
        "age" => Some(Deed::Age),
        "put" => Some(Deed::Put),
        "judge" => Some(Deed::Judge),
        "take" => Some(Deed::Take),
        "cut" => Some(Deed::Cut),
        "mend" => Some(Deed::Mend),
        "inject" => Some(Deed::Inject),
        "drain" => Some(Deed::Drain),
        _ => None,
    }
}

/// The name and the letter of an end.
pub(crate) fn end_of(text: &[u8]) -> Option<(&[u8], u8)>
    ensures { option_map (λ e. (e.0.now, e.1)) result ≡ end_of text.now }
{
    let (name, rest) = split_at(text, b'.');
    match rest {
        Some([letter]) => {
            // Any port's letter: whether the node has that port is asked when its role is known.
            if is_name(name) && is_port_letter(*letter) {
                Some((name, *letter))
            } else {
                None
            }
        }
        _ => None,
    }
}
