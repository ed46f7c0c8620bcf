//! Long texts, line by line.
ghost use Rattle.std.specs.Prelude.{◌≡◌, ◌++◌, ◌∷◌, [], IfOk, OnOk};
ghost use Rattle.hsr_timeline.specs.Fronts.{lists_of};
ghost use Rattle.hsr_diagram_text.specs.Wrapped.{wrapped};

use hsr_frame::NoMemory;
use std::alloc::Global;

// In letters and not in places: no contract speaks of how wide letters are.
/// How many letters a line has before it may end.
const LONG: usize = 96;

/// Puts a copy of a line last.
fn push_line(alloc: Global, lines: &mut Vec<Vec<u8>>, line: &[u8]) -> Result<(), NoMemory>
    ensures { OnOk result (lists_of lines.new.items ≡ lists_of lines.old.items ++ line.now ∷ []) }
{
    lines.push(Vec::from_slice(alloc, line)?)?;
    Ok(())
}

/// Puts one more letter last.
fn push_letter(line: &mut Vec<u8>, letter: u8) -> Result<(), NoMemory>
    ensures { OnOk result (line.new.items ≡ line.old.items ++ letter ∷ []) }
{
    line.push(letter)?;
    Ok(())
}

/// The lines of a text. Each ends at the first space behind 96 letters, which is left out, or with the text. `NoMemory`
/// if allocation fails.
pub fn wrapped(alloc: Global, words: &[u8]) -> Result<Vec<Vec<u8>>, NoMemory>
    ensures { IfOk result (λ lines. lists_of lines.items ≡ wrapped words.now) }
{
    let mut lines = Vec::new(alloc);
    let mut line = Vec::new(alloc);
    let mut rest = words;
    // What is left is a variable, since the loop's invariant speaks of it.
    while let Some((letter, more)) = rest.split_first() {
        if *letter == b' ' && line.len() >= LONG {
            // A copy, so that `line` keeps its room for the next one.
            push_line(alloc, &mut lines, line.as_slice())?;
            line.clear();
        } else {
            push_letter(&mut line, *letter)?;
        }
        rest = more;
    }
    push_line(alloc, &mut lines, line.as_slice())?;
    Ok(lines)
}
