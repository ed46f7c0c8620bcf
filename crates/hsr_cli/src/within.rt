//! The bound of `--within`: how long after its send a copy may be under way.
ghost use Rattle.std.specs.Prelude.{IfNone, IfSome, Some, option_map};
ghost use Rattle.hsr_text.specs.Words.{decimal_of};
ghost use Rattle.hsr_cli.specs.Within.{IsWithin};

use hsr_text::decimal;

/// The longest bound, in microseconds: so long a node remembers a frame (EntryForgetTime, IEC 62439-3 clause 5).
const LONGEST: u64 = 400_000;

/// The bound that a word names, in microseconds: none where there is no word. `None` where the word is no number from 1 to 400000.
pub(crate) fn within_of(said: Option<&str>) -> Option<Option<u64>>
    ensures found { IfSome result (IsWithin (option_map (λ s. s.now) said.entry)) }
    ensures none { IfNone result ((within : _)
        → ¬ IsWithin (option_map (λ s. s.now) said.entry) within) }
{
    match said {
        None => Some(None),
        Some(word) => match decimal(word.as_bytes()) {
            Some(bound) if 1 <= bound && bound <= LONGEST => Some(Some(bound)),
            _ => None,
        },
    }
}
