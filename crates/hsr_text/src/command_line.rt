//! The arguments of a program's command line, and a line that tells of them.
ghost use Rattle.std.specs.Prelude.{◌≡◌, ◌++◌, IfOk, OnOk, codes, drop, map, string_bytes};
ghost use Rattle.std.specs.Io.KnownBytes.{Appends};

use hsr_frame::NoMemory;
use std::alloc::Global;
use std::io::{self, Write};

/// The arguments after the program's name. `NoMemory` if allocation fails.
pub fn arguments(alloc: Global, args: &Vec<String>) -> Result<Vec<&str>, NoMemory>
    ensures { IfOk result (λ words. map (λ s. s.now) words.items
        ≡ map string_bytes (drop 1 args.now.items)) }
{
    let mut words = Vec::new(alloc);
    for word in args.iter().skip(1) {
        words.push(word.as_str())?;
    }
    Ok(words)
}

/// Writes a line, such as why arguments are refused.
pub fn write_line<E: Write>(errors: &mut E, text: &str) -> io::Result<()>
    ensures { OnOk result (Appends (E.contents errors.old) (E.contents errors.new) (text.now
        ++ codes "\n")) }
{
    errors.write_all(text.as_bytes())?;
    errors.write_all(b"\n")
}
