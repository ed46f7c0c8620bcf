//! What is asked of a capture.
ghost use Rattle.std.specs.Prelude.{◌≡◌, ◌==◌, map, IfOk};
ghost use Rattle.std.specs.List.{list_any, range_with_len};
ghost use Rattle.hsr_health.specs.Whole.{is_asked};

use hsr_frame::NoMemory;
use hsr_taps::Choice;
use std::alloc::Global;

/// What is asked of a capture.
#[derive(Drop)]
pub struct Asked<'a> {
    pub choice: Choice<'a>,
    /// The entries of a duplicate table.
    pub table: u64,
    /// Whether nothing at the edges of the capture is open.
    pub is_whole: bool,
}

/// Whether a number is among others.
fn is_number_among(numbers: &[usize], i: usize) -> bool
    ensures { result ≡ list_any (λ j. j == i) numbers.now }
{
    for own in numbers {
        if *own == i {
            return true;
        }
    }
    false
}

/// Whether an interface is asked for.
fn is_asked(choice: &Choice<'_>, i: usize) -> bool
    ensures { result ≡ is_asked choice.now i }
{
    let asked = choice.interfaces.as_slice();
    asked.is_empty() || is_number_among(asked, i)
}

/// Of each interface whether it is among those that are asked for.
pub(crate) fn asked_of(
    alloc: Global,
    choice: &Choice<'_>,
    many: usize,
) -> Result<Vec<bool>, NoMemory>
    ensures { IfOk result (λ asked. asked.items ≡ map (is_asked choice.now) (range_with_len 0 many)) }
{
    let mut asked = Vec::new(alloc);
    for i in 0..many {
        asked.push(is_asked(choice, i))?;
    }
    Ok(asked)
}
