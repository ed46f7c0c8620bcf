//! An explanation, line by line.
ghost use Rattle.std.specs.Prelude.{◌≡◌, ◌++◌, OnOk};
ghost use Rattle.hsr_timeline.specs.Fronts.{lists_of};
ghost use Rattle.hsr_explanation.specs.Lines.{line_of, lines_of};

use hsr_frame::NoMemory;
use hsr_toml::put_shown;
use std::alloc::Global;

/// What is explained: the words of each line.
#[derive(Drop)]
pub struct Explanation {
    pub lines: Vec<Vec<u8>>,
}

impl Explanation {
    /// An explanation without lines.
    pub fn new(alloc: Global) -> Explanation {
        Explanation {
            lines: Vec::new(alloc),
        }
    }

    /// Puts the lines of another last. `NoMemory` if allocation fails; some of them may stand there then.
    pub fn join(&mut self, other: Explanation) -> Result<(), NoMemory> {
        for words in other.lines {
            self.lines.push(words)?;
        }
        Ok(())
    }

    /// Puts a line last.
    pub(crate) fn add(&mut self, words: Vec<u8>) -> Result<(), NoMemory> {
        self.lines.push(words)?;
        Ok(())
    }
}

/// Puts a line last.
fn put_line(text: &mut Vec<u8>, words: &[u8]) -> Result<(), NoMemory>
    ensures { OnOk result (text.new.items ≡ text.old.items ++ line_of words.now) }
{
    text.extend_from_slice(b"explain: ")?;
    // Names and keys come from a text, and a terminal is to obey nothing that stands there.
    put_shown(text, words)?;
    text.extend_from_slice(b"\n")?;
    Ok(())
}

/// Puts lines last, each as `explain: ` and its words, with a question mark in place of each control octet. `NoMemory`
/// if allocation fails.
#[tactic(auto, using(crate::proofs::Listing::lines_step))]
pub fn put_explanation(text: &mut Vec<u8>, lines: &[Vec<u8>]) -> Result<(), NoMemory>
    ensures { OnOk result (text.new.items ≡ text.old.items ++ lines_of (lists_of lines.now)) }
{
    for words in lines {
        put_line(text, words.as_slice())?;
    }
    Ok(())
}
