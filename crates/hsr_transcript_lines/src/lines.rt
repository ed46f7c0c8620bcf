//! Kinds of line, each with its writer and its reader, and sections of lines.
//!
//! A line has one spelling. A reader is lenient, and `read_line` then spells the value again and compares. So "in
//! form" is said once, by the writer, and no reader has to know it. Where the words tell already that they are that
//! spelling, the second one is spared.
ghost use Rattle.std.specs.Prelude.{◌≡◌, ◌<◌, ◌^◌, ◌++◌, ◌∷◌, [], ℕ, List, Option, OnOk, IfOk, length, true};
ghost use Rattle.std.specs.List.{AllByRecursion};
ghost use Rattle.std.specs.Str.{bytes_eq};
ghost use Rattle.hsr_text.specs.Words.{Gives};
ghost use Rattle.hsr_transcript_lines.specs.Lines.{head, section, text_of};
ghost use Rattle.hsr_transcript_lines.specs.Exact.{exactly};

use crate::words::put_number;
use hsr_frame::NoMemory;
use hsr_text::WordFault;
use std::alloc::Global;

/// A kind of line: how the line of a value is spelled, what a line says, and what its type tells of a value.
pub trait LineKind {
    type Value: Drop;

    ghost spelled: { Self → Self.Value → List ℕ };

    ghost said: { Self → List ℕ → Option Self.Value };

    ghost fits: { Self → Self.Value → Type 0 };

    /// Puts the line of a value, without its line feed.
    fn put(&self, text: &mut Vec<u8>, value: &Self::Value) -> Result<(), NoMemory>
        ensures written { OnOk result (text.new.items
            ≡ text.old.items ++ spelled self.now value.now) }
        ensures fits { OnOk result (fits self.now value.now) };

    /// Reads what a line says, which may be spelled otherwise, and tells whether it surely isn't. There is room to spell a
    /// part of it again.
    fn parse(
        &self,
        alloc: Global,
        line: &[u8],
        room: &mut Vec<u8>,
    ) -> Result<(Self::Value, bool), WordFault>
        ensures said { Gives (λ v. v.0) result (said self.now line.now) }
        ensures sure { IfOk result (λ v. v.1 ≡ true → spelled self.now v.0 ≡ line.now) };
}

/// Whether a line is that of a value, which is spelled in the room for it.
fn is_line_of<K: LineKind>(
    kind: &K,
    value: &K::Value,
    line: &[u8],
    spelled: &mut Vec<u8>,
) -> Result<bool, NoMemory>
    ensures { IfOk result (λ same. same ≡ bytes_eq (K.spelled kind.now value.now) line.now) }
{
    spelled.clear();
    kind.put(spelled, value)?;
    Ok(spelled.as_slice() == line)
}

/// Reads the value whose line this is: what the line says, if it is spelled so. `spelled` is room to spell the value again
/// where its words don't tell that it is. `Bad` where the line is of no such value, `Memory` if allocation fails.
#[tactic(auto, using(crate::proofs::Exact::exactly_sure))]
pub fn read_line<K: LineKind>(
    kind: &K,
    alloc: Global,
    line: &[u8],
    spelled: &mut Vec<u8>,
) -> Result<K::Value, WordFault>
    ensures { Gives (λ v. v) result (exactly (K.spelled kind.now) (K.said kind.now) line.now) }
{
    let (value, sure) = match kind.parse(alloc, line, spelled) {
        Ok(read) => read,
        Err(fault) => return Err(fault),
    };
    // Long lines are mostly sure, so their octets aren't spelled a second time.
    if sure {
        return Ok(value);
    }
    match is_line_of(kind, &value, line, spelled) {
        Ok(true) => Ok(value),
        Ok(false) => Err(WordFault::Bad),
        Err(_) => Err(WordFault::Memory),
    }
}

/// Puts a line of a name and a number, `<name> <count>`, behind what the text holds.
/// The line ends with a line feed. `NoMemory` if allocation fails; a front of the line may stand there then.
pub fn put_head(text: &mut Vec<u8>, name: &[u8], count: usize) -> Result<(), NoMemory>
    ensures { OnOk result (text.new.items ≡ text.old.items ++ text_of (head name.now count ∷ [])) }
{
    text.extend_from_slice(name)?;
    put_number(text, count as u64)?;
    text.push(b'\n')?;
    Ok(())
}

/// Puts a section behind what the text holds: a line that says how many values there are, and the line of each.
/// Each line ends with a line feed. `NoMemory` if allocation fails; a front of the section may stand there then.
#[tactic(auto, unfolding(crate::specs::Lines::section))]
pub fn put_section<K: LineKind>(
    kind: &K,
    text: &mut Vec<u8>,
    name: &[u8],
    values: &[K::Value],
) -> Result<(), NoMemory>
    ensures written { OnOk result (text.new.items
        ≡ text.old.items ++ text_of (section name.now (K.spelled kind.now) values.now)) }
    ensures fit { OnOk result (AllByRecursion (K.fits kind.now) values.now) }
    ensures few { length values.now < 2 ^ 64 }
{
    // The count comes first, so that a reader knows where the section ends.
    put_head(text, name, values.len())?;
    for value in values {
        kind.put(text, value)?;
        text.push(b'\n')?;
    }
    Ok(())
}
