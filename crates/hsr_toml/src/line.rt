//! A fault's one line.
ghost use Rattle.std.specs.Prelude.{◌≡◌, ◌++◌, map, IfOk, OnOk};
ghost use Rattle.hsr_toml.specs.Line.{IsLine, line_of, shown};

use hsr_frame::NoMemory;
use std::alloc::Global;

/// An octet as a line has it: a question mark in place of a control octet.
fn shown(b: u8) -> u8
    ensures { result ≡ shown b }
{
    // A fault has one line, and a terminal is to obey nothing that stands in a text.
    if b < 32 || b == 127 { b'?' } else { b }
}

/// Puts words last, each control octet of which is a question mark.
/// `NoMemory` if allocation fails; a front of the words may stand there then.
pub fn put_shown(line: &mut Vec<u8>, words: &[u8]) -> Result<(), NoMemory>
    ensures { OnOk result (line.new.items ≡ line.old.items ++ map shown words.now) }
{
    for b in words.iter() {
        line.push(shown(*b))?;
    }
    Ok(())
}

/// Words behind `fault: `, without control octets.
fn spelled(alloc: Global, words: &[u8]) -> Result<Vec<u8>, NoMemory>
    ensures { IfOk result (λ v. v.items ≡ line_of words.now) }
{
    let mut line = Vec::new(alloc);
    line.extend_from_slice(b"fault: ")?;
    put_shown(&mut line, words)?;
    Ok(line)
}

/// The line of a fault with these words: `fault: ` and the words, each control octet of which is a question mark, without a line
/// feed. `NoMemory` if allocation fails.
#[tactic(auto, using(crate::proofs::Lines::is_line))]
pub fn fault_line(alloc: Global, words: &[u8]) -> Result<Vec<u8>, NoMemory>
    ensures { IfOk result (λ v. IsLine v.items) }
{
    spelled(alloc, words)
}
